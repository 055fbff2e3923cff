//! The laws of the formats, as the contract of a call that does nothing.

ghost use Rattle.ct_codec.specs.Codec.{IsExact};
ghost use Rattle.ct_definitions.specs.declared.definition.FileDef.{FileDef};
ghost use Rattle.ct_definitions.specs.declared.change.Change.{Change};
ghost use Rattle.ct_change_codec.specs.DefinitionFormat.{definition_codec, FitsDefinition, DefinitionLengthsFit};
ghost use Rattle.ct_change_codec.specs.ChangeFormat.{change_codec, FitsChange, LengthsFit};

/// The formats of definitions and changes are exact: what is read is spelled so, and what fits its fields is
/// read again, whatever follows.
pub fn formats_are_exact()
    ensures definition { IsExact definition_codec FitsDefinition }
    ensures change { IsExact change_codec FitsChange }
    // What fits its fields can be written.
    ensures definition_lengths { (def : FileDef) → FitsDefinition def → DefinitionLengthsFit def }
    ensures change_lengths { (change : Change) → FitsChange change → LengthsFit change }
{}
