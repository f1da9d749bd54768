//! Bodies of goals: a list of jobs in place of recursion.

ghost use Rattle.std.specs.Prelude.{◌≡◌, ℕ, ◌+◌, ◌<◌, ◌≤◌, ◌^◌, List, ◌∷◌, length, reverse, Ok};
ghost use Rattle.std.specs.Prelude.{IfOk, IfSome, IfNone, OnOk, OnErr, option_map};
ghost use Rattle.tp_terms.specs.Names.{IsTable};
ghost use Rattle.tp_terms.specs.Term.{Name, Comp, More, NoMore};
ghost use Rattle.tp_terms.specs.Shown.{AreNamed, name_at};
ghost use Rattle.tp_meaning.specs.Body.{body};
ghost use Rattle.tp_store.specs.Contents.{AddsCells, seen};
ghost use Rattle.tp_store.specs.Chain.{IsChains, contents_of};
ghost use Rattle.tp_store.specs.Work.{AreIn};
ghost use Rattle.tp_store.specs.Bodies.{AreJobs, AsksMemory, FindsBody, Goes, IsPair, IsWithin};
ghost use Rattle.tp_store.specs.Bodies.{KeepsNames, KeepsOwn, Looked, ShowsCall, ShowsPair};
ghost use Rattle.tp_store.specs.Bodies.{compound_form, form_of, joins, pair_of};

use crate::chains::Chains;
use std::alloc::Global;
use tp_terms::symbols::{CALL, CONJUNCTION, DISJUNCTION, IF_THEN};
use tp_terms::{AtomId, Cell, NoMemory, Ref};

/// What is left to do.
#[derive(Clone, Copy)]
pub enum Job {
    /// To find the body of the term of a place.
    Convert(Ref),
    /// To join the two bodies that were made last as two goals are joined.
    Join {
        /// The place of the two goals, joined.
        at: Ref,
        /// The name that joins them.
        name: AtomId,
        /// The first goal.
        left: Ref,
        /// The second goal.
        right: Ref,
    },
}

/// What a cell is as a goal.
#[derive(Clone, Copy)]
pub enum Form {
    /// An integer, which has no body.
    Integer,
    /// A variable.
    Variable,
    /// Two goals, joined by a name.
    Pair {
        /// The name.
        name: AtomId,
        /// The first goal. The second stands behind it.
        first: Ref,
    },
    /// A goal that is its own body.
    Plain,
}

/// Whether a compound of this name and two arguments is made of two goals.
fn joins_goals(name: AtomId) -> bool
    ensures { result ≡ joins name }
{
    name == CONJUNCTION || name == DISJUNCTION || name == IF_THEN
}

/// What a compound is as a goal.
fn compound_form(name: AtomId, first: Ref, count: u8) -> Form
    ensures { result ≡ compound_form name first count }
{
    if count == 2 && joins_goals(name) {
        Form::Pair { name, first }
    } else {
        Form::Plain
    }
}

/// What a cell is as a goal.
fn as_goal(cell: Cell) -> Form
    ensures { result ≡ form_of cell }
{
    match cell {
        Cell::Var(_) => Form::Variable,
        Cell::Int(_) => Form::Integer,
        Cell::Atom(_) => Form::Plain,
        Cell::Comp { name, first, count } => compound_form(name, first, count),
    }
}

/// A place for a goal that calls what a place shows.
fn called(chains: &mut Chains, place: Ref) -> Result<Ref, NoMemory>
    requires chains { IsChains chains.old }
    requires place { place.at < length chains.old.cells.items }
    ensures chains { IsChains chains.new }
    ensures adds { AddsCells (contents_of chains.old) (contents_of chains.new) }
    ensures place { IfOk result (λ at. at.at < length chains.new.cells.items) }
    ensures shown { IfOk result
        (ShowsCall (contents_of chains.old) (contents_of chains.new) place) }
    ensures named { OnOk result
        (KeepsNames CALL (contents_of chains.old) (contents_of chains.new)) }
{
    chains.place(Cell::Comp {
        name: CALL,
        first: place,
        count: 1,
    })
}

/// A place for two goals, joined by a name.
fn joined(chains: &mut Chains, name: AtomId, left: Ref, right: Ref) -> Result<Ref, NoMemory>
    requires chains { IsChains chains.old }
    requires left { left.at < length chains.old.cells.items }
    requires right { right.at < length chains.old.cells.items }
    ensures chains { IsChains chains.new }
    ensures adds { AddsCells (contents_of chains.old) (contents_of chains.new) }
    ensures place { IfOk result (λ at. at.at < length chains.new.cells.items) }
    ensures shown { IfOk result
        (ShowsPair (contents_of chains.old) (contents_of chains.new) name left right) }
    ensures named { OnOk result
        (KeepsNames name (contents_of chains.old) (contents_of chains.new)) }
{
    let (left, right) = (chains.cells.get(left), chains.cells.get(right));
    let first = chains.place(left)?;
    chains.place(right)?;
    chains.place(Cell::Comp {
        name,
        first,
        count: 2,
    })
}

/// A place for two bodies, joined as the goals of a place are: that place, where each goal is its
/// own body.
fn rejoined(
    chains: &mut Chains,
    at: Ref,
    name: AtomId,
    goals: (Ref, Ref),
    bodies: (Ref, Ref),
) -> Result<Ref, NoMemory>
    requires chains { IsChains chains.old }
    requires pair { IsPair (contents_of chains.old) at.at name goals.0.at goals.1.at }
    requires left { bodies.0.at < length chains.old.cells.items }
    requires right { bodies.1.at < length chains.old.cells.items }
    ensures chains { IsChains chains.new }
    ensures adds { AddsCells (contents_of chains.old) (contents_of chains.new) }
    ensures place { IfOk result (λ at. at.at < length chains.new.cells.items) }
    ensures shown { IfOk result
        (ShowsPair (contents_of chains.old) (contents_of chains.new) name bodies.0 bodies.1) }
    ensures own { bodies ≡ goals →
        (contents_of chains.new ≡ contents_of chains.old) × (result ≡ Ok at) }
    ensures named { OnOk result
        (KeepsNames name (contents_of chains.old) (contents_of chains.new)) }
{
    if bodies.0.at == goals.0.at && bodies.1.at == goals.1.at {
        return Ok(at);
    }
    joined(chains, name, bodies.0, bodies.1)
}

/// Takes the two newest bodies, the older one first.
fn two_newest(made: &mut Vec<Ref>) -> (Ref, Ref)
    requires { 2 ≤ length made.old.items }
    ensures { reverse made.old.items ≡ result.1 ∷ result.0 ∷ reverse made.new.items }
{
    let kept = made.len() - 2;
    let newest = (made[kept], made[kept + 1]);
    made.truncate(kept);
    newest
}

/// Joins the two newest bodies.
fn join(
    chains: &mut Chains,
    at: Ref,
    name: AtomId,
    goals: (Ref, Ref),
    made: &mut Vec<Ref>,
) -> Result<(), NoMemory>
    requires chains { IsChains chains.old }
    requires pair { IsPair (contents_of chains.old) at.at name goals.0.at goals.1.at }
    requires enough { 2 ≤ length made.old.items }
    requires within { AreIn chains.old.cells.items (reverse made.old.items) }
    ensures chains { IsChains chains.new }
    ensures adds { AddsCells (contents_of chains.old) (contents_of chains.new) }
    ensures step { OnOk result ((jobs : List Job) →
        AreJobs (contents_of chains.old) (Job.Join at name goals.0 goals.1 ∷ jobs)
        (length (reverse made.old.items)) →
        Goes (contents_of chains.old) (Job.Join at name goals.0 goals.1 ∷ jobs)
        (reverse made.old.items) (contents_of chains.new) jobs (reverse made.new.items)) }
{
    let bodies = two_newest(made);
    let place = rejoined(chains, at, name, goals, bodies)?;
    made.push(place)?;
    Ok(())
}

/// Adds the jobs of two goals, joined by a name.
fn push_goals(
    jobs: &mut Vec<Job>,
    at: Ref,
    name: AtomId,
    left: Ref,
    right: Ref,
) -> Result<(), NoMemory>
    ensures { OnOk result
        (reverse jobs.new.items ≡ Job.Convert left ∷ Job.Convert right ∷ Job.Join at name left right
        ∷ reverse jobs.old.items) }
{
    jobs.push(Job::Join {
        at,
        name,
        left,
        right,
    })?;
    jobs.push(Job::Convert(right))?;
    jobs.push(Job::Convert(left))?;
    Ok(())
}

/// Looks at a goal: its body is made at once, or those of its parts are to be made first, or it has
/// none.
fn look_at(
    chains: &mut Chains,
    at: Ref,
    jobs: &mut Vec<Job>,
    made: &mut Vec<Ref>,
) -> Result<bool, NoMemory>
    requires chains { IsChains chains.old }
    requires can { AreJobs (contents_of chains.old) (Job.Convert at ∷ reverse jobs.old.items)
        (length (reverse made.old.items)) }
    requires within { AreIn chains.old.cells.items (reverse made.old.items) }
    ensures chains { IsChains chains.new }
    ensures adds { AddsCells (contents_of chains.old) (contents_of chains.new) }
    ensures step { IfOk result (λ has.
        Looked has (contents_of chains.old) at (reverse jobs.old.items) (reverse made.old.items)
        (contents_of chains.new) (reverse jobs.new.items) (reverse made.new.items)) }
{
    let end = chains.end(at);
    match as_goal(end.cell) {
        Form::Integer => return Ok(false),
        Form::Variable => made.push(called(chains, end.place)?)?,
        Form::Pair { name, first } => {
            let second = Ref { at: first.at + 1 };
            push_goals(jobs, at, name, first, second)?;
        }
        Form::Plain => made.push(at)?,
    }
    Ok(true)
}

/// A place for the body of a goal, where it has one. Cells are left where it has none.
fn convert(chains: &mut Chains, alloc: Global, goal: Ref) -> Result<Option<Ref>, NoMemory>
    requires chains { IsChains chains.old }
    requires goal { goal.at < length chains.old.cells.items }
    ensures chains { IsChains chains.new }
    ensures adds { AddsCells (contents_of chains.old) (contents_of chains.new) }
    ensures body { IfOk result (FindsBody (contents_of chains.old) (contents_of chains.new) goal) }
    ensures own { IfOk result (KeepsOwn (contents_of chains.old) (contents_of chains.new) goal) }
    ensures place { IfOk result (IsWithin (contents_of chains.new)) }
    ensures named { IfOk result
        (λ found. IfSome found
        (λ at. KeepsNames CALL (contents_of chains.old) (contents_of chains.new))) }
{
    let mut jobs = Vec::new(alloc);
    let mut made = Vec::new(alloc);
    jobs.push(Job::Convert(goal))?;
    'jobs: while let Some(job) = jobs.pop() {
        match job {
            Job::Convert(at) => {
                if !look_at(chains, at, &mut jobs, &mut made)? {
                    return Ok(None);
                }
            }
            Job::Join {
                at,
                name,
                left,
                right,
            } => join(chains, at, name, (left, right), &mut made)?,
        }
    }
    Ok(Some(made[0]))
}

/// A place for the body of a goal, where it has one. Where there is none, and where memory is
/// refused, no cell was added.
fn converted(chains: &mut Chains, alloc: Global, goal: Ref) -> Result<Option<Ref>, NoMemory>
    requires chains { IsChains chains.old }
    requires goal { goal.at < length chains.old.cells.items }
    ensures chains { IsChains chains.new }
    ensures adds { AddsCells (contents_of chains.old) (contents_of chains.new) }
    ensures body { IfOk result (FindsBody (contents_of chains.old) (contents_of chains.new) goal) }
    ensures own { IfOk result (KeepsOwn (contents_of chains.old) (contents_of chains.new) goal) }
    ensures place { IfOk result (IsWithin (contents_of chains.new)) }
    ensures named { OnOk result
        (KeepsNames CALL (contents_of chains.old) (contents_of chains.new)) }
    ensures none { IfOk result
        (λ found. IfNone found (contents_of chains.new ≡ contents_of chains.old)) }
    ensures err { OnErr result (contents_of chains.new ≡ contents_of chains.old) }
{
    let kept = chains.cells.len();
    match convert(chains, alloc, goal) {
        Ok(Some(at)) => Ok(Some(at)),
        Ok(None) => {
            chains.cells.cut_to(kept);
            Ok(None)
        }
        Err(refused) => {
            chains.cells.cut_to(kept);
            Err(refused)
        }
    }
}

/// A place for the body of a goal, where it has one. Where there is none, and where memory is
/// refused, no cell was added. A goal that is its own body stays where it is.
pub fn body_of(chains: &mut Chains, alloc: Global, goal: Ref) -> Result<Option<Ref>, NoMemory>
    requires chains { IsChains chains.old }
    requires goal { goal.at < length chains.old.cells.items }
    ensures chains { IsChains chains.new }
    ensures adds { AddsCells (contents_of chains.old) (contents_of chains.new) }
    ensures body { IfOk result (FindsBody (contents_of chains.old) (contents_of chains.new) goal) }
    ensures own { IfOk result (KeepsOwn (contents_of chains.old) (contents_of chains.new) goal) }
    ensures place { IfOk result (IsWithin (contents_of chains.new)) }
    ensures named { OnOk result
        (KeepsNames CALL (contents_of chains.old) (contents_of chains.new)) }
    ensures none { IfOk result
        (λ found. IfNone found (contents_of chains.new ≡ contents_of chains.old)) }
    ensures err { OnErr result (contents_of chains.new ≡ contents_of chains.old) }
    ensures memory { OnErr result (AsksMemory (contents_of chains.old) goal) }
{
    match as_goal(chains.end(goal).cell) {
        Form::Plain => Ok(Some(goal)),
        Form::Integer => Ok(None),
        _ => converted(chains, alloc, goal),
    }
}
