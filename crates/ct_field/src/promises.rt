//! How fields are read and written: each function stands for a theorem, which is its contract.
ghost use Rattle.std.specs.Prelude.{◌≡◌, ◌↔◌, ◌≤◌, ℕ, true, List, length, Some};
ghost use Rattle.ct_value.specs.declared.ty.Ty.{Ty};
ghost use Rattle.ct_value.specs.declared.value.Value.{Value};
ghost use Rattle.ct_field.specs.Fields.{field_text, field_value, longest_field};
ghost use Rattle.ct_field.specs.Numbers.{is_type};
ghost use Rattle.ct_field.specs.Typed.{value_fits};
ghost use Rattle.ct_field.specs.Spells.{IsText, Spells};

/// The value that a field is read as is the one that its bytes spell, and there is one exactly where they are at most 65,536 and
/// spell one.
pub fn fields_are_read_as_they_are_spelled()
    ensures { (ty : Ty) (value : Value) (bytes : List ℕ) → (field_value ty bytes ≡ Some value) ↔ ((length bytes ≤ longest_field) × Spells ty value bytes) }
{}

/// The text in which a value of a type is written spells it.
pub fn written_fields_spell_their_value()
    ensures { (ty : Ty) (value : Value) → is_type ty ≡ true → value_fits ty value ≡ true → IsText value → Spells ty value (field_text ty value) }
{}
