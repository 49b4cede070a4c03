//! The hooks that commands may name.
ghost use Rattle.std.specs.Prelude.{◌≡◌, [], None, true, IfOk, OnOk};
ghost use Rattle.ed_base.specs.declared.CutRule.{CutRule};
ghost use Rattle.ed_base.specs.declared.QueryRule.{QueryRule};
ghost use Rattle.ed_base.specs.declared.CustomRule.{CustomRule};
ghost use Rattle.ed_base.specs.Hooks.{named};
ghost use Rattle.ed_base.specs.Names.{is_name};
ghost use Rattle.ed_callbacks.specs.Answering.{AnswersCustom, AnswersCut, AnswersQuery};
ghost use Rattle.ed_callbacks.specs.HookLists.{hook_table, with_custom, with_query, with_resolver};
ghost use Rattle.ed_replay.specs.ProgramHooks.{no_hooks, program_customs, program_hooks, program_queries, resolvers_alone, same_cuts};

use ed_base::{CustomRule, CutRule, Name, OutOfMemory, QueryRule};
use ed_callbacks::{Ask, CustomTrack, Cut, Hooks, RegionQuery, Resolver, Track};
use std::alloc::Global;

/// Keeps a resolver under a name that no resolver has. It divides insertions and replacements by one
/// rule.
fn keep_resolver(
    alloc: Global,
    hooks: &mut Hooks,
    name: &str,
    rule: CutRule,
    insert: Cut,
    replace: Cut,
) -> Result<(), OutOfMemory>
    requires valid { is_name name.now ≡ true }
    requires free { named name.now (hook_table hooks.old).resolvers ≡ None }
    requires insert { AnswersCut (Cut.pre insert) (Cut.post insert) rule }
    requires replace { AnswersCut (Cut.pre replace) (Cut.post replace) rule }
    ensures { OnOk result (hook_table hooks.new ≡ with_resolver (hook_table hooks.old) (name.now, same_cuts rule)) }
{
    let resolver = Resolver::new(Name::of(alloc, name)?, rule, insert, rule, replace);
    hooks.add_resolver(resolver)
}

/// Keeps a query of read-only regions under a name that no query has.
fn keep_query(
    alloc: Global,
    hooks: &mut Hooks,
    name: &str,
    rule: QueryRule,
    ask: Ask,
) -> Result<(), OutOfMemory>
    requires valid { is_name name.now ≡ true }
    requires free { named name.now (hook_table hooks.old).queries ≡ None }
    requires answers { AnswersQuery (Ask.pre ask) (Ask.post ask) rule }
    ensures { OnOk result (hook_table hooks.new ≡ with_query (hook_table hooks.old) (name.now, rule)) }
{
    let query = RegionQuery::new(Name::of(alloc, name)?, rule, ask);
    hooks.add_query(query)
}

/// Keeps a way of tracking spans under a name that no other has.
fn keep_custom(
    alloc: Global,
    hooks: &mut Hooks,
    name: &str,
    rule: CustomRule,
    track: Track,
) -> Result<(), OutOfMemory>
    requires valid { is_name name.now ≡ true }
    requires free { named name.now (hook_table hooks.old).customs ≡ None }
    requires answers { AnswersCustom (Track.pre track) (Track.post track) rule }
    ensures { OnOk result (hook_table hooks.new ≡ with_custom (hook_table hooks.old) (name.now, rule)) }
{
    let custom = CustomTrack::new(Name::of(alloc, name)?, rule, track);
    hooks.add_custom(custom)
}

/// Keeps the resolvers of the program where no hooks were: closures for each rule, under the rule's
/// name. `keep_hooks` adds the other hooks.
///
/// # Errors
///
/// Memory was refused.
#[tactic(auto, unfolding(ed_base::specs::Names::is_name))]
pub fn keep_resolvers(
    alloc: Global,
    hooks: &mut Hooks,
    first_insert: Cut,
    first_replace: Cut,
    last_insert: Cut,
    last_replace: Cut,
    even_insert: Cut,
    even_replace: Cut,
) -> Result<(), OutOfMemory>
    requires none { hook_table hooks.old ≡ no_hooks }
    requires first_insert { AnswersCut (Cut.pre first_insert) (Cut.post first_insert) CutRule.First }
    requires first_replace { AnswersCut (Cut.pre first_replace) (Cut.post first_replace) CutRule.First }
    requires last_insert { AnswersCut (Cut.pre last_insert) (Cut.post last_insert) CutRule.Last }
    requires last_replace { AnswersCut (Cut.pre last_replace) (Cut.post last_replace) CutRule.Last }
    requires even_insert { AnswersCut (Cut.pre even_insert) (Cut.post even_insert) CutRule.Even }
    requires even_replace { AnswersCut (Cut.pre even_replace) (Cut.post even_replace) CutRule.Even }
    ensures { OnOk result (hook_table hooks.new ≡ resolvers_alone) }
{
    keep_resolver(
        alloc,
        hooks,
        "first",
        CutRule::First,
        first_insert,
        first_replace,
    )?;
    keep_resolver(
        alloc,
        hooks,
        "last",
        CutRule::Last,
        last_insert,
        last_replace,
    )?;
    keep_resolver(
        alloc,
        hooks,
        "even",
        CutRule::Even,
        even_insert,
        even_replace,
    )
}

/// Keeps the queries of the program.
#[tactic(auto, unfolding(ed_base::specs::Names::is_name))]
fn keep_queries(
    alloc: Global,
    hooks: &mut Hooks,
    always: Ask,
    edit_only: Ask,
    even_version: Ask,
) -> Result<(), OutOfMemory>
    requires none { (hook_table hooks.old).queries ≡ [] }
    requires always { AnswersQuery (Ask.pre always) (Ask.post always) QueryRule.Always }
    requires edit_only { AnswersQuery (Ask.pre edit_only) (Ask.post edit_only) QueryRule.EditOnly }
    requires even_version { AnswersQuery (Ask.pre even_version) (Ask.post even_version) QueryRule.EvenVersion }
    ensures { OnOk result (hook_table hooks.new ≡ record (hook_table hooks.old) { queries = program_queries }) }
{
    keep_query(alloc, hooks, "always", QueryRule::Always, always)?;
    keep_query(alloc, hooks, "edit_only", QueryRule::EditOnly, edit_only)?;
    keep_query(
        alloc,
        hooks,
        "even_version",
        QueryRule::EvenVersion,
        even_version,
    )
}

/// Keeps the program's ways of tracking spans.
#[tactic(auto, unfolding(ed_base::specs::Names::is_name))]
fn keep_customs(
    alloc: Global,
    hooks: &mut Hooks,
    sticky: Track,
    caret: Track,
) -> Result<(), OutOfMemory>
    requires none { (hook_table hooks.old).customs ≡ [] }
    requires sticky { AnswersCustom (Track.pre sticky) (Track.post sticky) CustomRule.Sticky }
    requires caret { AnswersCustom (Track.pre caret) (Track.post caret) CustomRule.Caret }
    ensures { OnOk result (hook_table hooks.new ≡ record (hook_table hooks.old) { customs = program_customs }) }
{
    keep_custom(alloc, hooks, "sticky", CustomRule::Sticky, sticky)?;
    keep_custom(alloc, hooks, "caret", CustomRule::Caret, caret)
}

/// Keeps the hooks of the program beside its resolvers, which are there (`keep_resolvers`): a closure
/// for each rule, under the rule's name.
///
/// # Errors
///
/// Memory was refused.
pub fn keep_hooks(
    alloc: Global,
    hooks: &mut Hooks,
    always: Ask,
    edit_only: Ask,
    even_version: Ask,
    sticky: Track,
    caret: Track,
) -> Result<(), OutOfMemory>
    requires resolved { hook_table hooks.old ≡ resolvers_alone }
    requires always { AnswersQuery (Ask.pre always) (Ask.post always) QueryRule.Always }
    requires edit_only { AnswersQuery (Ask.pre edit_only) (Ask.post edit_only) QueryRule.EditOnly }
    requires even_version { AnswersQuery (Ask.pre even_version) (Ask.post even_version) QueryRule.EvenVersion }
    requires sticky { AnswersCustom (Track.pre sticky) (Track.post sticky) CustomRule.Sticky }
    requires caret { AnswersCustom (Track.pre caret) (Track.post caret) CustomRule.Caret }
    ensures { OnOk result (hook_table hooks.new ≡ program_hooks) }
{
    keep_queries(alloc, hooks, always, edit_only, even_version)?;
    keep_customs(alloc, hooks, sticky, caret)
}
