//! What follows for every schema, as contracts of functions that do nothing.

ghost use Rattle.std.specs.Prelude.{List};
ghost use Rattle.ad_schema.specs.declared.line.SchemaRecord.{SchemaRecord};
ghost use Rattle.ad_schema.specs.Sound.{AreAdded, MakeSchema, NamesAreDistinct, ChainsEnd, AreFew};

/// No two attributes or classes that were added have one name, and no two rights one GUID.
pub fn names_are_distinct()
    ensures { (records : List SchemaRecord) → AreAdded records → NamesAreDistinct records }
{}

/// There are fewer than 2^32 attributes, classes and rights.
pub fn records_are_few()
    ensures { (records : List SchemaRecord) → AreAdded records → AreFew records }
{}

/// What a class of a schema names is of the schema, and its chain ends: it is the class, and then the chain of the
/// one above.
pub fn chains_end()
    ensures { (records : List SchemaRecord) → MakeSchema records → ChainsEnd records }
{}
