//! Laws of the definitions: each function does nothing, and its clauses state a law.

ghost use Rattle.tp_write.specs.Back.{WrittenReadsBack};

/// What is written of a term at 1200 under the operators of the start, with a space, a dot and a
/// newline behind it, is read as a clause (ISO/IEC 13211-1, clause 6.4) that is the same term with
/// its variables renumbered from 0 in order of first occurrence. The clause begins at the first
/// byte and ends behind the dot.
///
/// The names of the term are made of characters, its integers and the numbers of its variables are
/// within 64 bits, its compounds have from 1 to 255 arguments, none has the name `[]` nor the name
/// `{}` with other than one argument, and its written form is at most 1,000 deep.
pub fn reads_back()
    ensures { WrittenReadsBack }
{}

#[cfg(test)]
mod tests {
    use super::*;

    #[test]
    fn laws_can_be_called(rt: HostRuntime) {
        reads_back();
    }
}
