ghost use Rattle.std.specs.Prelude.{◌≡◌, ℕ, List};
ghost use Rattle.core_types.specs.declared.module.Module.{Module};
ghost use Rattle.meaning.specs.binary.Modules.{SpellsModule};

/// Law: bytes encode at most one module.
///
/// This is a law of the definitions (Binary Format, Modules), which callers of the decoder can use. The function does nothing.
pub fn bytes_spell_one_module()
    ensures { (bytes : List ℕ) (a b : Module) → SpellsModule bytes a → SpellsModule bytes b
        → a ≡ b }
{}
