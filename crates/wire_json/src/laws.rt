//! Laws of printing and parsing: functions without a body. Call one where a proof needs its contract.
ghost use Rattle.std.specs.Prelude.{ℕ};
ghost use Rattle.schema_table.specs.declared.schema.Schema.{Schema as Tables};
ghost use Rattle.schema_table.specs.Telling.{NamesTellParts};
ghost use Rattle.wire_json.specs.RoundTrip.{ReadsLine, ReadsPrinted, TakesLine, TakesPrinted};

/// What [`parse`](crate::parse::parse) reads from the text that `print` of `wire_print` wrote of a value has the bytes of that value.
/// And that text means the value, so `parse` doesn't refuse it.
///
/// `printed` and `printed_taken` say it of the text itself, unless that is an object with the only member `value`, which `parse`
/// takes for a line of a receiver. `line` and `line_taken` say it of that line, `{"value": ..}` round the text, whatever it is.
///
/// All are for tables whose names tell the parts of each type apart (`NamesTellParts`): no two fields of a struct and no two
/// variants of an enum have one name. And for values whose integers are in range, as those of a program are.
pub fn parsed_as_printed()
    ensures printed { (schema : Tables) (place : ℕ) → NamesTellParts schema
        → ReadsPrinted schema place }
    ensures printed_taken { (schema : Tables) (place : ℕ) → NamesTellParts schema
        → TakesPrinted schema place }
    ensures line { (schema : Tables) (place : ℕ) → NamesTellParts schema
        → ReadsLine schema place }
    ensures line_taken { (schema : Tables) (place : ℕ) → NamesTellParts schema
        → TakesLine schema place }
{}
