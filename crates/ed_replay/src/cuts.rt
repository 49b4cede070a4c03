//! Shares of a text that is divided between targets.
ghost use Rattle.std.specs.Prelude.{◌≡◌, ◌<◌, ◌≤◌, ◌^◌};
ghost use Rattle.ed_base.specs.declared.CutRule.{CutRule as Rule};
ghost use Rattle.ed_base.specs.Hooks.{cut};

/// Where the share of target `index` of `count` ends, of `len` units that are divided evenly.
pub fn even_end(len: u32, count: u32, index: u32) -> u32
    requires len { len ≤ 2 ^ 22 }
    requires count { count ≤ 1024 }
    requires index { index < count }
    ensures { result ≡ cut Rule.Even len count index }
{
    let units = u64::from(len) * (u64::from(index) + 1);
    (units / u64::from(count)) as u32
}
