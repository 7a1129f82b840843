//! Chapter 07: types and their format strings ("The Arrow C Data Interface", "Data type description -- format strings"), and metadata.
ghost use Rattle.std.specs.Prelude.{◌≡◌, ◌++◌, pos, negsuc, true, false, [], ◌∷◌, codes};
ghost use Rattle.data_types.specs.declared.kind.DataType.TheVariants as kinds;
ghost use Rattle.data_types.specs.declared.kind.Tick.TheVariants.{Second, Milli, Micro, Nano};
ghost use Rattle.fmt_string.specs.promise.FormatString.{FormatIs};
ghost use Rattle.fmt_string.specs.promise.Spelling.{spelling_of};
ghost use Rattle.schema_meta.specs.promise.Meta.{MetaIs, spelling};
ghost use Rattle.facts.specs.Formats.{more, one};

/// Texts of the standard's tables, with their types.
pub fn format_texts()
    ensures int32 { FormatIs (codes "i") (kinds.Int 32 true) }
    ensures date { FormatIs (codes "tdD") kinds.DateDay }
    ensures zone { FormatIs (codes "tss:Europe/Paris") (kinds.Timestamp Second (codes "Europe/Paris")) }
    ensures no_zone { FormatIs (codes "tsn:") (kinds.Timestamp Nano []) }
    ensures months { FormatIs (codes "tiM") kinds.IntervalMonths }
    ensures map { FormatIs (codes "+m") kinds.Map }
    ensures size_spelled { spelling_of (kinds.FixedBinary 42) ≡ codes "w:42" }
    ensures list_size_spelled { spelling_of (kinds.FixedList 123) ≡ codes "+w:123" }
    ensures decimal_spelled { spelling_of (kinds.Decimal 19 (pos 10) false) ≡ codes "d:19,10" }
    ensures wide_decimal_spelled { spelling_of (kinds.Decimal 19 (pos 10) true) ≡ codes "d:19,10,256" }
    ensures scale_below_0_spelled { spelling_of (kinds.Decimal 5 (negsuc 1) false) ≡ codes "d:5,-2" }
    ensures duration_spelled { spelling_of (kinds.Duration Micro) ≡ codes "tDu" }
    ensures time_spelled { spelling_of (kinds.TimeOfDay Milli) ≡ codes "ttm" }
    ensures unsigned_spelled { spelling_of (kinds.Int 64 false) ≡ codes "L" }
    ensures large_text_spelled { spelling_of (kinds.Utf8 true) ≡ codes "U" }
    ensures view_spelled { spelling_of kinds.BinaryView ≡ codes "vz" }
{}

/// Metadata: that of the standard ("ArrowSchema.metadata"), and others.
pub fn metadata()
    ensures standard { MetaIs (1 ∷ 0 ∷ 0 ∷ 0 ∷ 4 ∷ 0 ∷ 0 ∷ 0 ∷ codes "key1" ++ 6 ∷ 0 ∷ 0 ∷ 0 ∷ codes "value1") one }
    ensures none { spelling [] ≡ 0 ∷ 0 ∷ 0 ∷ 0 ∷ [] }
    ensures more { spelling more ≡ 2 ∷ 0 ∷ 0 ∷ 0 ∷ 1 ∷ 0 ∷ 0 ∷ 0 ∷ codes "k" ++ 0 ∷ 0 ∷ 0 ∷ 0 ∷ 1 ∷ 0 ∷ 0 ∷ 0 ∷ codes "k" ++ 1 ∷ 0 ∷ 0 ∷ 0 ∷ codes "v" }
{}
