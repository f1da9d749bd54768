//! The model of a sample, and what is counted of its answers.

ghost use Rattle.std.specs.Prelude.{◌≡◌, ◌+◌, ◌-◌, ◌<◌, ◌++◌, flat_map, string_bytes, IfOk, OnOk};
ghost use Rattle.std.specs.List.{range_with_len};
ghost use Rattle.tp_top.specs.Sample.{last_clause, process_clause, sample_text as text_of};

use std::alloc::Global;
use tp_engine::{AnswerFault, AnswerView, Answers};
use tp_terms::NoMemory;

/// Adds the clause of a process that another one follows.
fn add_process(alloc: Global, k: u64, text: &mut String) -> Result<(), NoMemory>
    requires { k < 18446744073709551615 }
    ensures { OnOk result
        (string_bytes text.new ≡ string_bytes text.old ++ process_clause k) }
{
    let next = k + 1;
    let clause = format!(in alloc; "s{k} :- c(_), new(w,p{k},0,inf), s{next}.\n")?;
    text.push_str(&clause)?;
    Ok(())
}

/// Adds the clauses of so many processes, each of which another one follows.
fn add_processes(alloc: Global, followed: u64, text: &mut String) -> Result<(), NoMemory>
    requires { followed < 18446744073709551615 }
    ensures { OnOk result (string_bytes text.new
        ≡ string_bytes text.old ++ flat_map process_clause (range_with_len 1 followed)) }
{
    'processes: for before in 0..followed {
        add_process(alloc, before + 1, text)?;
    }
    Ok(())
}

/// Adds the clause of the last process.
fn add_last(alloc: Global, n: u64, text: &mut String) -> Result<(), NoMemory>
    ensures { OnOk result
        (string_bytes text.new ≡ string_bytes text.old ++ last_clause n) }
{
    let clause = format!(in alloc; "s{n} :- c(_), new(w,p{n},0,inf).\n")?;
    text.push_str(&clause)?;
    Ok(())
}

/// The model of a sample with so many processes, as docs/REPORT.md has it. Its first course makes
/// them all, with a choice for each, and then fails. Each clause stands on a line of its own.
///
/// # Errors
/// `NoMemory` where memory was refused.
pub fn sample_text(alloc: Global, n: u64) -> Result<String, NoMemory>
    ensures { IfOk result (λ text. string_bytes text ≡ text_of n) }
{
    let mut text = String::new(alloc);
    text.push_str("top :- first.\ntop.\nfirst :- s1, hold(1), !, fail.\n")?;
    add_processes(alloc, n.saturating_sub(1), &mut text)?;
    add_last(alloc, n, &mut text)?;
    text.push_str("c(1).\nc(2).\nw :- hold(2).\n")?;
    Ok(text)
}

/// Counts the events of each answer when it is found, and writes nothing.
#[derive(Clone, Copy)]
pub struct Tally {
    /// How many events the last answer has, and 0 before the first one.
    pub events: u64,
}

impl Answers for Tally {
    ghost use Rattle.std.specs.Prelude.{◌≡◌, length};

    ghost takes = { λ old answer new. new.events ≡ length answer.world.history };

    ghost leaves = { λ old answer fault new. ⊥ };

    ghost faults = { λ tally. 0 };

    fn answer(&mut self, view: &AnswerView<'_>) -> Result<(), AnswerFault> {
        self.events = view.events().len() as u64;
        Ok(())
    }
}
