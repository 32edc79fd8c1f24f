//! What is true of all addresses.
ghost use Rattle.std.specs.Prelude.{◌≡◌, ◌⊎◌, List, ℕ, IsTrue, Option, None, Result, Ok, Err};
ghost use Rattle.std.specs.Str.{str_to_ascii_lowercase};
ghost use Rattle.cf_bytes.specs.declared.memory.Refused.{Refused};
ghost use Rattle.cf_bytes.specs.declared.memory.Refused.TheVariants.{NoMemory};
ghost use Rattle.cf_address.specs.declared.fault.AddressFault.{AddressFault};
ghost use Rattle.cf_address.specs.Witness.{WitnessProgram, script_of};
ghost use Rattle.cf_address.specs.Address.{is_prefix, IsAddressOf};
ghost use Rattle.cf_address.specs.Faults.{address_fault, Reads};
ghost use Rattle.cf_address.specs.Scripts.{address_script};

/// Says of addresses of one network: an address has no fault; it is that of one program; reading it gives
/// that program, so what was written is read again; and two that are taken for one script differ in case
/// alone. The script that is found from its text is its program's. Programs with one script are the same.
pub fn laws_of_addresses()
    ensures taken { (prefix text : List ℕ) (p : WitnessProgram) → IsTrue (is_prefix prefix) → IsAddressOf prefix p text
        → address_fault prefix text ≡ None }
    ensures one { (prefix text : List ℕ) (p q : WitnessProgram) → IsTrue (is_prefix prefix) → IsAddressOf prefix p text
        → IsAddressOf prefix q text → p ≡ q }
    ensures again { (prefix text : List ℕ) (p : WitnessProgram) (r : Result WitnessProgram (Refused AddressFault))
        → IsTrue (is_prefix prefix) → IsAddressOf prefix p text → Reads prefix text r
        → (r ≡ Ok p) ⊎ (r ≡ Err NoMemory) }
    ensures case { (prefix s t : List ℕ) (p q : WitnessProgram) → IsTrue (is_prefix prefix) → IsAddressOf prefix p s
        → IsAddressOf prefix q t → script_of p ≡ script_of q → str_to_ascii_lowercase s ≡ str_to_ascii_lowercase t }
    ensures found { (prefix text : List ℕ) (p : WitnessProgram) → IsTrue (is_prefix prefix) → IsAddressOf prefix p text
        → address_script prefix text ≡ script_of p }
    ensures scripts { (p q : WitnessProgram) → script_of p ≡ script_of q → p ≡ q }
{}
