//! Read-only regions of the bases of a stock.
ghost use Rattle.std.specs.Prelude.{◌≡◌, ◌-◌, ◌<◌, ◌≤◌, length, map, slice_get, false, nat_eq, Some, IfOk, OnOk, OnErr};
ghost use Rattle.std.specs.List.{list_any};
ghost use Rattle.ed_base.specs.Spans.{end_of};
ghost use Rattle.ed_layers.specs.Records.{is_carrier};
ghost use Rattle.ed_readonly.specs.LiveRegions.{limit_passed, limit_told};
ghost use Rattle.ed_stock.specs.Stock.{buffer, count, record_now, text_now, with_buffer};
ghost use Rattle.ed_held.specs.Asking.{IsBase, regions_of, with_region, without_region, zoned};
ghost use Rattle.ed_risen.specs.Laws.{RecordsStay};
ghost use Rattle.ed_held.specs.Seen.{known, stock, text_of};

use crate::stock::Stock;
use ed_base::{BufferNo, EdgeMode, Name, RegionNo, Span, SpanMode};
use ed_held::Held;
use ed_readonly::RegionFault;

impl Stock {
    /// Makes a read-only region inside the current text of a base, under the next number.
    ///
    /// # Errors
    ///
    /// Too many regions, of those that live or else of the numbers given; or memory was refused. The
    /// stock is as before then.
    pub fn add_region(
        &mut self,
        b: BufferNo,
        span: Span,
        mode: SpanMode,
        edge: EdgeMode,
        query: Option<Name>,
    ) -> Result<RegionNo, RegionFault>
        requires there { b < count (stock self.old) }
        requires base { is_carrier (record_now (stock self.old) b) ≡ false }
        requires within { end_of span ≤ length (text_now (stock self.old) b) }
        ensures limit { limit_told result ≡ limit_passed (regions_of (buffer (stock self.old) b)) }
        ensures number { IfOk result (λ number. number ≡ (buffer (stock self.old) b).regions_given) }
        ensures ok { OnOk result (stock self.new ≡ with_buffer (stock self.old) b (with_region (buffer (stock self.old) b) span mode edge query)) }
        ensures err { OnErr result (stock self.new ≡ stock self.old) }
        ensures stay { RecordsStay (stock self.old) (stock self.new) }
    {
        let held = &mut self.buffers[b.0 as usize];
        held.add_region(span, mode, edge, query)
    }

    /// Removes the region of this number of a base. Whether it was live.
    pub fn remove_region(&mut self, b: BufferNo, region: RegionNo) -> bool
        requires there { b < count (stock self.old) }
        requires base { is_carrier (record_now (stock self.old) b) ≡ false }
        ensures live { result ≡ list_any (λ r. nat_eq r.number region) (buffer (stock self.old) b).regions }
        ensures same { result ≡ false → stock self.new ≡ stock self.old }
        ensures regions { stock self.new ≡ with_buffer (stock self.old) b (without_region (buffer (stock self.old) b) region) }
        ensures stay { RecordsStay (stock self.old) (stock self.new) }
    {
        let held = &mut self.buffers[b.0 as usize];
        held.remove_region(region)
    }
}
