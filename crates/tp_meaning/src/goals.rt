//! The goals that the language has of its own: control goals, process goals and built-ins.

ghost use Rattle.std.specs.Prelude.{◌≡◌, ◌<◌, List, Some, length, slice_get};
ghost use Rattle.tp_terms.specs.Term.{Name};
ghost use Rattle.tp_terms.specs.Names.{IsTable};
ghost use Rattle.tp_terms.specs.Shown.{name_at};
ghost use Rattle.tp_meaning.specs.Goals.{goal_kind, kind_of_row};

use tp_terms::AtomId;
use tp_terms::symbols::TRUE;

/// A control goal (ISO/IEC 13211-1, 7.8 and 8.15; `between` is of this project alone).
#[derive(Clone, Copy, Debug, PartialEq, Eq)]
pub enum ControlGoal {
    /// `true`.
    True,
    /// `fail`.
    Fail,
    /// `,`.
    Conjunction,
    /// `!`.
    Cut,
    /// `;`.
    Disjunction,
    /// `->`.
    IfThen,
    /// `\+`.
    NotProvable,
    /// `call` with one to eight arguments.
    Call,
    /// `once`.
    Once,
    /// `repeat`.
    Repeat,
    /// `between`.
    Between,
}

/// A goal of processes (docs/PROCESSES.md).
#[derive(Clone, Copy, Debug, PartialEq, Eq)]
pub enum ProcessGoal {
    /// `new`.
    New,
    /// `hold`.
    Hold,
    /// `send`.
    Send,
    /// `wait_for`.
    WaitFor,
    /// `wait`.
    Wait,
    /// `now`.
    Now,
    /// `self`.
    OwnName,
    /// `note`.
    Note,
}

/// A built-in (ISO/IEC 13211-1, 8.2 to 8.7 and 8.16).
#[derive(Clone, Copy, Debug, PartialEq, Eq)]
pub enum BuiltId {
    /// `var`.
    Var,
    /// `nonvar`.
    Nonvar,
    /// `atom`.
    Atom,
    /// `integer`.
    Integer,
    /// `atomic`.
    Atomic,
    /// `compound`.
    Compound,
    /// `callable`.
    Callable,
    /// `=`.
    Unify,
    /// `\=`.
    NotUnifiable,
    /// `==`.
    Same,
    /// `\==`.
    NotSame,
    /// `@<`.
    Before,
    /// `@=<`.
    BeforeOrSame,
    /// `@>`.
    After,
    /// `@>=`.
    AfterOrSame,
    /// `is`.
    Is,
    /// `=:=`.
    NumberEqual,
    /// `=\=`.
    NumberUnequal,
    /// `<`.
    Less,
    /// `=<`.
    LessEqual,
    /// `>`.
    Greater,
    /// `>=`.
    GreaterEqual,
    /// `functor`.
    Functor,
    /// `arg`.
    Arg,
    /// `=..`.
    Univ,
    /// `copy_term`.
    CopyTerm,
    /// `atom_length`.
    AtomLength,
    /// `atom_codes`.
    AtomCodes,
}

/// What kind of goal a name and a number of arguments are.
#[derive(Clone, Copy, Debug, PartialEq, Eq)]
pub enum GoalKind {
    /// A control goal.
    Control(ControlGoal),
    /// A goal of processes.
    Process(ProcessGoal),
    /// A built-in.
    BuiltIn(BuiltId),
}

/// The fewest and the most arguments of the goals of each name, and their kind. The names stand
/// side by side in every table of names, `true` first.
const GOALS: [(u8, u8, GoalKind); 47] = [
    (0, 0, GoalKind::Control(ControlGoal::True)),
    (0, 0, GoalKind::Control(ControlGoal::Fail)),
    (2, 2, GoalKind::Control(ControlGoal::Conjunction)),
    (0, 0, GoalKind::Control(ControlGoal::Cut)),
    (2, 2, GoalKind::Control(ControlGoal::Disjunction)),
    (2, 2, GoalKind::Control(ControlGoal::IfThen)),
    (1, 1, GoalKind::Control(ControlGoal::NotProvable)),
    (1, 8, GoalKind::Control(ControlGoal::Call)),
    (1, 1, GoalKind::Control(ControlGoal::Once)),
    (0, 0, GoalKind::Control(ControlGoal::Repeat)),
    (3, 3, GoalKind::Control(ControlGoal::Between)),
    (4, 4, GoalKind::Process(ProcessGoal::New)),
    (1, 1, GoalKind::Process(ProcessGoal::Hold)),
    (2, 2, GoalKind::Process(ProcessGoal::Send)),
    (1, 1, GoalKind::Process(ProcessGoal::WaitFor)),
    (1, 1, GoalKind::Process(ProcessGoal::Wait)),
    (1, 1, GoalKind::Process(ProcessGoal::Now)),
    (1, 1, GoalKind::Process(ProcessGoal::OwnName)),
    (1, 1, GoalKind::Process(ProcessGoal::Note)),
    (1, 1, GoalKind::BuiltIn(BuiltId::Var)),
    (1, 1, GoalKind::BuiltIn(BuiltId::Nonvar)),
    (1, 1, GoalKind::BuiltIn(BuiltId::Atom)),
    (1, 1, GoalKind::BuiltIn(BuiltId::Integer)),
    (1, 1, GoalKind::BuiltIn(BuiltId::Atomic)),
    (1, 1, GoalKind::BuiltIn(BuiltId::Compound)),
    (1, 1, GoalKind::BuiltIn(BuiltId::Callable)),
    (2, 2, GoalKind::BuiltIn(BuiltId::Unify)),
    (2, 2, GoalKind::BuiltIn(BuiltId::NotUnifiable)),
    (2, 2, GoalKind::BuiltIn(BuiltId::Same)),
    (2, 2, GoalKind::BuiltIn(BuiltId::NotSame)),
    (2, 2, GoalKind::BuiltIn(BuiltId::Before)),
    (2, 2, GoalKind::BuiltIn(BuiltId::BeforeOrSame)),
    (2, 2, GoalKind::BuiltIn(BuiltId::After)),
    (2, 2, GoalKind::BuiltIn(BuiltId::AfterOrSame)),
    (2, 2, GoalKind::BuiltIn(BuiltId::Is)),
    (2, 2, GoalKind::BuiltIn(BuiltId::NumberEqual)),
    (2, 2, GoalKind::BuiltIn(BuiltId::NumberUnequal)),
    (2, 2, GoalKind::BuiltIn(BuiltId::Less)),
    (2, 2, GoalKind::BuiltIn(BuiltId::LessEqual)),
    (2, 2, GoalKind::BuiltIn(BuiltId::Greater)),
    (2, 2, GoalKind::BuiltIn(BuiltId::GreaterEqual)),
    (3, 3, GoalKind::BuiltIn(BuiltId::Functor)),
    (3, 3, GoalKind::BuiltIn(BuiltId::Arg)),
    (2, 2, GoalKind::BuiltIn(BuiltId::Univ)),
    (2, 2, GoalKind::BuiltIn(BuiltId::CopyTerm)),
    (2, 2, GoalKind::BuiltIn(BuiltId::AtomLength)),
    (2, 2, GoalKind::BuiltIn(BuiltId::AtomCodes)),
];

/// The kind of a row of goals, where it has this number of arguments.
fn kind_of_row(row: (u8, u8, GoalKind), count: u8) -> Option<GoalKind>
    ensures { result ≡ kind_of_row row count }
{
    let (least, most, kind) = row;
    if least <= count && count <= most {
        Some(kind)
    } else {
        None
    }
}

/// The row at a place.
fn row_at(place: usize) -> (u8, u8, GoalKind)
    requires { place < length GOALS }
    ensures { slice_get GOALS place ≡ Some result }
{
    GOALS[place]
}

/// The kind of the goals of a name and a number of arguments, where the language has them of its
/// own; `None` where clauses define them. Takes the same time for every name.
pub fn goal_kind(name: AtomId, count: u8) -> Option<GoalKind>
    ensures { (names : List Name) → IsTable names → name.at < length names →
        result ≡ goal_kind (name_at names name.at) count }
{
    if name.at < TRUE.at {
        return None;
    }
    let place = (name.at - TRUE.at) as usize;
    if place >= GOALS.len() {
        return None;
    }
    let row = row_at(place);
    kind_of_row(row, count)
}
