//! The theorems, contracts of functions that do nothing.
ghost use Rattle.std.specs.Prelude.{◌≡◌, List, Some, map, take, true, ℕ, ℤ};
ghost use Rattle.std.specs.List.{list_all};
ghost use Rattle.pp_meaning.specs.Expressions.{sum};
ghost use Rattle.pp_meaning.specs.Lines.{sum_text};
ghost use Rattle.pp_meaning.specs.Names.{AreNames};
ghost use Rattle.pp_meaning.specs.Qualifiers.{Names};
ghost use Rattle.pp_meaning.specs.Units.{IsAssembled};
ghost use Rattle.pp_meaning.specs.declared.statements.Image.{Image};
ghost use Rattle.pp_meaning.specs.declared.expressions.Expression.{Expression};
ghost use Rattle.pp_meaning.specs.declared.expressions.Place.{Place};
ghost use Rattle.pp_meaning.specs.declared.expressions.Symbol.{Symbol};
ghost use Rattle.pp_meaning.specs.declared.statements.SystemText.{SystemText};
ghost use Rattle.pp_meaning.specs.declared.statements.Unit.{Unit};
ghost use Rattle.pp_meaning_laws.specs.Cuts.{IsPrefix, IsRight, cut_of, is_plain};
ghost use Rattle.pp_meaning_laws.specs.Images.{shown};

/// Statements leave no choice of what their symbols stand for, nor of their words: two tables with which the definition gives them
/// words have the same numbers, and give the same words.
pub fn statements_have_one_table()
    ensures values { (a b : List Symbol) (systems : List SystemText) (units : List Unit) (first second : List Image) →
        IsAssembled a systems units first → IsAssembled b systems units second →
        map (λ (symbol : Symbol). symbol.value) a ≡ map (λ (symbol : Symbol). symbol.value) b }
    ensures words { (a b : List Symbol) (systems : List SystemText) (units : List Unit) (first second : List Image) →
        IsAssembled a systems units first → IsAssembled b systems units second → map shown first ≡ map shown second }
{}

/// The text of an expression leaves no choice of its terms: two right expressions with the same text both begin with a sign, or neither
/// does, and a reader sees the same terms in both. An expression with a value is right, unless `**` has a factor behind it.
pub fn text_is_cut_in_one_way()
    ensures terms { (names : Names) (x y : Expression) → IsRight names x → IsRight names y → sum_text names x ≡ sum_text names y →
        (x.has_sign ≡ y.has_sign) × (cut_of names x ≡ cut_of names y) }
    ensures right { (names : Names) (count : ℕ) (place : Place) (x : Expression) (number : ℤ) → AreNames names.symbols →
        IsPrefix names.prefix → list_all is_plain x.terms.items ≡ true → sum (take count names.symbols) place x ≡ Some number →
        IsRight names x }
{}
