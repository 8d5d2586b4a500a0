//! The symbols of display code.
ghost use Rattle.std.specs.Prelude.{◌≡◌, ◌==◌, ◌<◌, IfSome, slice_index};
ghost use Rattle.std.specs.List.{position};
ghost use Rattle.pp_notation.specs.DisplayCode.{code, symbol};

/// The symbols in the order of their codes.
static SYMBOLS: &[u8; 64] = b":ABCDEFGHIJKLMNOPQRSTUVWXYZ0123456789+-*/()$= ,.#[]%\"_!&'?<>@\\^;";

/// Returns the symbol of a code, up to octal 77.
pub fn symbol_of(code: u8) -> u8
    requires { code < 0o100 }
    ensures { result ≡ symbol code }
{
    SYMBOLS[code as usize]
}

/// Returns the code of a symbol, up to octal 77.
#[tactic(auto, unfolding(crate::specs::DisplayCode::code))]
pub fn code_of_symbol(byte: u8) -> Option<u8>
    ensures code { result ≡ code byte }
    ensures at_most { IfSome result (λ code. code < 0o100) }
    ensures found { IfSome result (λ code. symbol code ≡ byte) }
{
    match index_of(SYMBOLS, byte) {
        Some(code) => Some(code as u8),
        None => None,
    }
}

/// Returns the index of a symbol among some.
fn index_of(symbols: &[u8; 64], byte: u8) -> Option<usize>
    ensures index { result ≡ position (λ one. one == byte) symbols.now }
    ensures found { IfSome result (λ index. slice_index symbols.now index ≡ byte) }
{
    symbols.iter().position(|one| *one == byte)
}
