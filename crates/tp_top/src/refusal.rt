//! The lines of refusals.

ghost use Rattle.std.specs.Prelude.{◌≡◌, IfOk};
ghost use Rattle.tp_clauses.specs.Model.{refusal};
ghost use Rattle.tp_top.specs.Expected.{alone, cause_word as word_of};
ghost use Rattle.tp_top.specs.Expected.{goal_refused as goal_line};
ghost use Rattle.tp_top.specs.Expected.{model_refused as model_line};
ghost use Rattle.tp_top.specs.Expected.{read_fault, too_long as long_line, usage as usage_line};
ghost use Rattle.tp_top.specs.Replies.{view_of};

use crate::program::Status;
use crate::report::Reply;
use std::alloc::Global;
use tp_clauses::Cause;
use tp_terms::NoMemory;

/// The answer to words that are no request. Takes no memory.
pub fn usage() -> Reply
    ensures { view_of result ≡ usage_line }
{
    Reply::fixed(Status::Usage, "usage: tprolog MODEL GOAL [options]\n")
}

/// The answer to a model whose file couldn't be read. Takes no memory.
pub fn unread() -> Reply
    ensures { view_of result ≡ alone Status.Read read_fault }
{
    Reply::fixed(Status::Read, "read fault\n")
}

/// The answer to a model with too many bytes. Takes no memory.
pub fn too_long() -> Reply
    ensures { view_of result ≡ long_line }
{
    Reply::fixed(Status::Model, "model refused: more than 16777216 bytes\n")
}

/// The word for a cause.
fn cause_word(cause: Cause) -> &'static str
    ensures { result.now ≡ word_of cause }
{
    match cause {
        Cause::Utf8 => "Utf8",
        Cause::Token => "Token",
        Cause::Number => "Number",
        Cause::Unfinished => "Unfinished",
        Cause::Syntax => "Syntax",
        Cause::Depth => "Depth",
        Cause::Arity => "Arity",
        Cause::Head => "Head",
        Cause::Body => "Body",
        Cause::Builtin => "Builtin",
        Cause::Grammar => "Grammar",
        Cause::Directive => "Directive",
        Cause::Many => "Many",
    }
}

/// The answer to a model that is refused at a read term, which is counted from 1, and a byte.
pub fn model_refused(alloc: Global, clause: u64, byte: u64, cause: Cause) -> Result<Reply, NoMemory>
    ensures { IfOk result (λ reply. view_of reply ≡ model_line (refusal clause byte cause)) }
{
    let word = cause_word(cause);
    let text = format!(in alloc; "model refused: clause {clause} byte {byte} cause {word}\n")?;
    Ok(Reply::made(Status::Model, text))
}

/// The answer to a goal that is refused at a byte.
pub fn goal_refused(alloc: Global, byte: usize, cause: Cause) -> Result<Reply, NoMemory>
    ensures { IfOk result (λ reply. view_of reply ≡ goal_line (byte, cause)) }
{
    let word = cause_word(cause);
    let text = format!(in alloc; "goal refused: byte {byte} cause {word}\n")?;
    Ok(Reply::made(Status::Goal, text))
}
