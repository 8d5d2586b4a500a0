//! The names by which an assembler takes the instructions, and how many words it gives each, are those of the instruction table.
#![tactic(auto)]

ghost use Rattle.std.specs.Prelude.{◌≡◌};
ghost use Rattle.pp_mnemonics.specs.Mnemonics.{names_of_table, sizes, sizes_of_table};
ghost use Rattle.pp_notation.specs.Mnemonics.{mnemonics};

/// The name of each code, and the number of its words, are those of the row in the instruction table with this code. The
/// function does nothing.
pub fn names_are_of_the_table()
    ensures names { mnemonics ≡ names_of_table }
    ensures words { sizes ≡ sizes_of_table }
{}
