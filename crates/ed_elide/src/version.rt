//! What a version of an elision buffer shows.
ghost use Rattle.std.specs.Prelude.{◌≡◌, ◌∷◌, [], ℕ, length, IfOk};
ghost use Rattle.ed_layers.specs.Records.{elision, members_len, members_of};
ghost use Rattle.ed_layers.specs.Texts.{text_over};
ghost use Rattle.ed_elide.specs.Records.{IsShown, shown_of};

use crate::hidden::Hidden;
use ed_base::{OutOfMemory, SharedList, VersionList, VersionNo};
use ed_members::Members;
use ed_text::{DocText, Text};
use ed_version::{HasText, Snapshot};
use std::alloc::Global;

/// What an elision buffer shows at one version: the hidden places of its source, the version of the
/// source, also as a list, the members, and the text, in UTF-16 units.
#[derive(Drop)]
pub struct ElisionVersion {
    pub hidden: Hidden,
    pub version: VersionNo,
    pub members: Members,
    pub sources: VersionList,
    pub text: DocText,
}

impl HasText for ElisionVersion {
    ghost units = { λ s. s.text };

    fn text(&self) -> &DocText
        ensures { result.now ≡ self.now.text }
    {
        &self.text
    }
}

/// What is shown of a source with these hidden places.
///
/// # Errors
///
/// Memory was refused.
pub fn shown_of(
    alloc: Global,
    hidden: Hidden,
    source: &Snapshot,
) -> Result<ElisionVersion, OutOfMemory>
    requires { length source.now.text ≡ length hidden }
    ensures shown { IfOk result (λ s. s ≡ shown_of hidden source.now.buffer source.now.version source.now.text) }
    ensures whole { IfOk result (λ s. IsShown source.now.buffer s) }
{
    let members = hidden.members(alloc, source.buffer)?;
    let text = hidden.text(alloc, &source.text)?;
    let mut list = Vec::with_capacity(alloc, 1)?;
    list.push((source.buffer, source.version))?;
    let sources = SharedList::of(alloc, list)?;
    Ok(ElisionVersion {
        hidden,
        version: source.version,
        members,
        sources,
        text,
    })
}
