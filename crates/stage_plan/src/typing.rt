//! The typing of stages over columns.
ghost use Rattle.std.specs.Prelude.{◌≡◌, ◌≢◌, ◌<◌, ◌+◌, ◌-◌, ◌^◌, ◌||◌, ℕ, List, All, IfOk, IfErr, IfSome, IfNone, Ok, Err, [], get_or, length, map, option_map, true, false};
ghost use Rattle.std.specs.List.{list_all, list_any};
ghost use Rattle.data_types.specs.ColumnForms.{KindsOk};
ghost use Rattle.data_types.specs.ColumnView.{column_of, kind_of};
ghost use Rattle.data_types.specs.promise.Table.{Column};
ghost use Rattle.stage_model.specs.promise.Typing.{columns_after, columns_named, const_for, drops_all, is_struct, lacks_constant, names_of, no_column};
ghost use Rattle.stage_model.specs.Typing.{PlanFaultIs, has_twice};
ghost use Rattle.stage_model.specs.promise.Typing.{stage_over, step_of, is_bytes, is_dict, is_ordered, is_summed, takes, with_stage};
ghost use Rattle.stage_model.specs.declared.stage.Step.TheVariants as steps;
ghost use Rattle.stage_model.specs.declared.fault.PlanFault.TheVariants as faults;
ghost use Rattle.stage_plan.specs.PlanWords.{IsPlan, IsThere, columns_in};

use crate::after::columns_after;
use crate::constants::{compares, constant_for};
use crate::places::{has_twice, others, places_of};
use data_types::{ColKind, ColumnType, DataType};
use stage_model::{Picks, PlanFault, PlanRule, StageText, Step, Test};
use std::alloc::Global;
use unit_pass::{Name, NoMemory};

/// What stages are over columns, by numbers from 0.
#[derive(Debug, Drop)]
pub struct Plan {
    /// The columns that are read, and those after each stage.
    pub links: Vec<Vec<ColumnType>>,
    /// The stages, by numbers of columns.
    pub steps: Vec<Step>,
}

/// What these stages are over columns, one stage after the other: the first stage at fault counts, from 1, and in it the
/// first rule in the order of [`PlanRule`], but that `NestedOutput` is a fault of the stage behind the last.
pub fn type_plan(
    alloc: Global,
    columns: Vec<ColumnType>,
    stages: &[StageText],
) -> Result<Plan, PlanFault>
    // The columns' types are proper ones.
    requires kinds { All (λ c. KindsOk (kind_of c.kind)) columns.items }
    requires few { length stages.now < 2 ^ 32 - 1 }
    // The links and the steps are those that the stages have.
    ensures found { IfOk result (IsPlan (columns_in columns.items) stages.now) }
    // A step for each stage, and a link before and behind each.
    ensures steps { IfOk result (λ plan. length plan.steps.items ≡ length stages.now) }
    ensures links { IfOk result (λ plan. length plan.links.items ≡ length stages.now + 1) }
    // Which fault it is.
    ensures fault { IfErr result (λ f. f ≢ faults.NoMemory → PlanFaultIs (columns_in columns.items) stages.now f) }
{
    let mut links = Vec::new(alloc);
    let mut steps = Vec::new(alloc);
    let mut columns = columns;
    for place in 0..stages.len() {
        let number = place as u32 + 1;
        let stage = plan_stage(alloc, number, columns.as_slice(), &stages[place])?;
        links.push(columns)?;
        steps.push(stage.step)?;
        columns = stage.columns;
    }
    if has_struct(columns.as_slice()) {
        return Err(PlanFault::At {
            stage: stages.len() as u32 + 1,
            rule: PlanRule::NestedOutput,
        });
    }
    links.push(columns)?;
    Ok(Plan { links, steps })
}

/// A stage, and the columns after it.
#[derive(Drop)]
struct PlannedStage {
    step: Step,
    columns: Vec<ColumnType>,
}

/// The most columns after a stage.
const MOST_COLUMNS: usize = 4096;

/// The stage that a text is over columns, where it has this number.
fn plan_stage(
    alloc: Global,
    number: u32,
    columns: &[ColumnType],
    text: &StageText,
) -> Result<PlannedStage, PlanFault>
    requires { All (λ c. KindsOk (kind_of c.kind)) columns.now }
    ensures found { IfOk result (λ s. stage_over (columns_in columns.now) text.now ≡ Ok (record { step = s.step; columns = columns_in s.columns.items })) }
    ensures kinds { IfOk result (λ s. All (λ c. KindsOk (kind_of c.kind)) s.columns.items) }
    ensures fault { IfErr result (λ f. f ≢ faults.NoMemory → with_stage number (stage_over (columns_in columns.now) text.now) (Ok []) ≡ Err f) }
{
    let names = names_of(text);
    let Some(places) = places_of(alloc, columns, names)? else {
        return Err(at(number, PlanRule::NoColumn));
    };
    let after = columns_after(alloc, columns, text, places.as_slice())?;
    if same_name(alloc, names, after.as_slice())? {
        return Err(at(number, PlanRule::SameName));
    }
    if !takes_all(columns, text, places.as_slice()) {
        return Err(at(number, PlanRule::WrongType));
    }
    let Some(step) = step_of(alloc, columns, text, places)? else {
        return Err(at(number, PlanRule::BadConstant));
    };
    if drops_all(text, after.as_slice()) {
        return Err(at(number, PlanRule::NoColumns));
    }
    if after.len() > MOST_COLUMNS {
        return Err(at(number, PlanRule::TooWide));
    }
    Ok(PlannedStage {
        step,
        columns: after,
    })
}

/// The fault of a stage.
fn at(stage: u32, rule: PlanRule) -> PlanFault
    ensures { result ≡ faults.At stage rule }
{
    PlanFault::At { stage, rule }
}

/// The columns that a stage names.
fn names_of(text: &StageText) -> &[Name]
    ensures { result.now ≡ names_of text.now }
{
    match text {
        StageText::Select { names }
        | StageText::Drop { names }
        | StageText::Pack { names, .. }
        | StageText::Totals { names } => names.as_slice(),
        StageText::Filter { name, .. }
        | StageText::Unpack { name }
        | StageText::Dict { name }
        | StageText::Plain { name } => std::slice::from_ref(name),
        StageText::Slice { .. } => &[],
    }
}

/// Whether a name is there twice, or two columns have one name.
fn same_name(alloc: Global, names: &[Name], columns: &[ColumnType]) -> Result<bool, NoMemory>
    ensures { IfOk result (λ twice. twice ≡ (has_twice names.now || has_twice (map (λ c. c.name) (columns_in columns.now)))) }
{
    if named_twice(alloc, names)? {
        return Ok(true);
    }
    columns_twice(alloc, columns)
}

/// Whether a name is there twice.
fn named_twice(alloc: Global, names: &[Name]) -> Result<bool, NoMemory>
    ensures { IfOk result (λ twice. twice ≡ has_twice names.now) }
{
    let mut list = Vec::new(alloc);
    for name in names {
        list.push(name.as_slice())?;
    }
    has_twice(alloc, list.as_slice())
}

/// Whether two columns have one name.
fn columns_twice(alloc: Global, columns: &[ColumnType]) -> Result<bool, NoMemory>
    ensures { IfOk result (λ twice. twice ≡ has_twice (map (λ c. c.name) (columns_in columns.now))) }
{
    let mut list = Vec::new(alloc);
    for column in columns {
        list.push(column.name.as_slice())?;
    }
    has_twice(alloc, list.as_slice())
}

/// Whether a stage takes the kinds of all columns that it names.
fn takes_all(columns: &[ColumnType], text: &StageText, places: &[usize]) -> bool
    requires { IsThere (columns_in columns.now) text.now places.now }
    ensures { result ≡ list_all (λ c. takes text.now c.kind) (columns_named (columns_in columns.now) (names_of text.now)) }
{
    for place in places {
        if !takes(text, &columns[*place].kind) {
            return false;
        }
    }
    true
}

/// Whether a stage takes a column of this kind.
fn takes(text: &StageText, kind: &ColKind) -> bool
    ensures { result ≡ takes text.now (kind_of kind.now) }
{
    match text {
        StageText::Filter { test, .. } => !compares(*test) || is_ordered(kind),
        StageText::Unpack { .. } => is_struct(kind),
        StageText::Dict { .. } => is_bytes(kind),
        StageText::Plain { .. } => is_dict(kind),
        StageText::Totals { .. } => is_summed(kind),
        StageText::Select { .. }
        | StageText::Drop { .. }
        | StageText::Slice { .. }
        | StageText::Pack { .. } => true,
    }
}

/// Whether values are compared with a constant.
fn is_ordered(kind: &ColKind) -> bool
    ensures { result ≡ is_ordered (kind_of kind.now) }
{
    match kind {
        ColKind::Flat(DataType::Float { .. }) => false,
        ColKind::Flat(_) => true,
        ColKind::Dict(_) | ColKind::Columns(_) => false,
    }
}

/// Whether values are texts or bytes between offsets.
fn is_bytes(kind: &ColKind) -> bool
    ensures { result ≡ is_bytes (kind_of kind.now) }
{
    matches!(
        kind,
        ColKind::Flat(DataType::Utf8 { .. } | DataType::Binary { .. })
    )
}

fn is_dict(kind: &ColKind) -> bool
    ensures { result ≡ is_dict (kind_of kind.now) }
{
    matches!(kind, ColKind::Dict(_))
}

fn is_struct(kind: &ColKind) -> bool
    ensures { result ≡ is_struct (kind_of kind.now) }
{
    matches!(kind, ColKind::Columns(_))
}

/// Whether a sum over all rows fits.
fn is_summed(kind: &ColKind) -> bool
    ensures { result ≡ is_summed (kind_of kind.now) }
{
    match kind {
        ColKind::Flat(DataType::Int { .. }) => true,
        ColKind::Flat(
            DataType::Decimal {
                precision,
                wide: false,
                ..
            },
        ) => *precision <= 28,
        _ => false,
    }
}

/// Whether a column is a struct.
fn has_struct(columns: &[ColumnType]) -> bool
    ensures { result ≡ list_any (λ c. is_struct (kind_of c.kind)) columns.now }
{
    columns.iter().any(|column| is_struct(&column.kind))
}

/// Whether the stage leaves all columns out by name, where these are the columns after it.
fn drops_all(text: &StageText, after: &[ColumnType]) -> bool
    ensures { (columns : List Column) → columns_in after.now ≡ columns_after columns text.now → result ≡ drops_all columns text.now }
{
    match text {
        StageText::Drop { .. } => after.is_empty(),
        _ => false,
    }
}

/// The step of a stage whose columns are at these places, or none where a filter's constant is no text of its column.
fn step_of(
    alloc: Global,
    columns: &[ColumnType],
    text: &StageText,
    places: Vec<usize>,
) -> Result<Option<Step>, NoMemory>
    requires kinds { All (λ c. KindsOk (kind_of c.kind)) columns.now }
    requires there { IsThere (columns_in columns.now) text.now places.items }
    ensures found { IfOk result (λ step. IfSome step (λ s. s ≡ step_of (columns_in columns.now) text.now)) }
    ensures right { IfOk result (λ step. IfSome step (λ _. lacks_constant (columns_in columns.now) text.now ≡ false)) }
    ensures wrong { IfOk result (λ step. IfNone step (lacks_constant (columns_in columns.now) text.now ≡ true)) }
{
    match text {
        StageText::Select { .. } => Ok(Some(Step::Select {
            picks: Picks::from_vec(places),
        })),
        StageText::Drop { .. } => {
            let rest = others(alloc, places.as_slice(), columns.len())?;
            Ok(Some(Step::Select {
                picks: Picks::from_vec(rest),
            }))
        }
        StageText::Slice { off, len } => Ok(Some(Step::Slice {
            off: *off,
            len: *len,
        })),
        StageText::Filter { test, constant, .. } => {
            filter_step(alloc, columns, places[0], *test, constant.as_slice())
        }
        StageText::Pack { .. } => {
            let rest = others(alloc, places.as_slice(), columns.len())?;
            Ok(Some(Step::Pack {
                rest: Picks::from_vec(rest),
                picks: Picks::from_vec(places),
            }))
        }
        StageText::Unpack { .. } => Ok(Some(Step::Unpack { column: places[0] })),
        StageText::Dict { .. } => Ok(Some(Step::Dict { column: places[0] })),
        StageText::Plain { .. } => Ok(Some(Step::Plain { column: places[0] })),
        StageText::Totals { .. } => Ok(Some(Step::Totals {
            columns: Picks::from_vec(places),
        })),
    }
}

/// The step of a filter, or none where the constant is no text of its column.
fn filter_step(
    alloc: Global,
    columns: &[ColumnType],
    column: usize,
    test: Test,
    constant: &[u8],
) -> Result<Option<Step>, NoMemory>
    requires kinds { All (λ c. KindsOk (kind_of c.kind)) columns.now }
    requires within { column < length columns.now }
    ensures { IfOk result
        (λ step. step ≡ option_map (steps.Filter column test) (const_for (get_or (columns_in columns.now) column no_column).kind test constant.now)) }
{
    match constant_for(alloc, &columns[column].kind, test, constant)? {
        Some(constant) => Ok(Some(Step::Filter {
            column,
            test,
            constant,
        })),
        None => Ok(None),
    }
}
