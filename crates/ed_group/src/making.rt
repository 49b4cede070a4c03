//! How a group that was planned is made.
ghost use Rattle.std.specs.Prelude.{◌≡◌};
ghost use Rattle.ed_climb.specs.Group.{IsPlanned, outcome};
ghost use Rattle.ed_risen.specs.Laws.{CurrentVector, OneVector, RecordsStay};
ghost use Rattle.ed_held.specs.Seen.{stock};

use crate::stock::Stock;
use ed_base::VersionList;
use ed_climb::Group;

impl Stock {
    /// Makes a group that was planned on this state, and tells the versions that it made. It takes no
    /// memory.
    pub fn commit(&mut self, group: Group) -> VersionList
        requires { IsPlanned self.old group }
        ensures stock { stock self.new ≡ outcome (stock self.old) group }
        ensures versions { result ≡ group.versions }
        ensures one { OneVector (stock self.new) }
        ensures current { CurrentVector (stock self.new) }
        ensures stay { RecordsStay (stock self.old) (stock self.new) }
    {
        let (graph, counts, versions) = group.make(&mut self.buffers);
        self.graph = graph;
        self.counts = counts;
        versions
    }
}
