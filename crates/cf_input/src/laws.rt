//! What the definitions say of one another.
ghost use Rattle.std.specs.Prelude.{◌≡◌, ℕ, ◌<◌, ◌^◌, ◌++◌, true, List};
ghost use Rattle.std.specs.Fmt.{decimal};
ghost use Rattle.cf_input.specs.Lines.{lines_of};
ghost use Rattle.cf_input.specs.LineLaws.{IsLine, AreLines, AreLinesOf, ended, if_some};
ghost use Rattle.cf_input.specs.Number.{is_number, number_of};

/// Lines that are joined are cut again, and each text is made of lines.
pub fn laws_of_lines()
    ensures again { (lines : List (List ℕ)) (last : List ℕ) → AreLines lines → IsLine last
        → lines_of (ended lines ++ last) ≡ lines ++ if_some last }
    ensures found { (text : List ℕ) → (lines : List (List ℕ)) × ((last : List ℕ) × AreLinesOf text lines last) }
{}

/// The numbers are the texts that are printed of them in decimal.
pub fn laws_of_numbers()
    ensures again { (n : ℕ) → n < 2 ^ 64 → (is_number (decimal n) ≡ true) × (number_of (decimal n) ≡ n) }
    ensures found { (t : List ℕ) → is_number t ≡ true → number_of t < 2 ^ 64 → decimal (number_of t) ≡ t }
{}
