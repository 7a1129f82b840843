//! Chapter 01: what words ask for.
ghost use Rattle.std.specs.Prelude.{◌≡◌, true, [], ◌∷◌, None, Some, Ok, Err, codes, replicate};
ghost use Rattle.run_model.specs.promise.Words.{made_of, words_of};
ghost use Rattle.run_model.specs.declared.words.WordsFault.TheVariants.{Refused, TooManyStages, UsedWithCheck, UsedWithSelftest};
ghost use Rattle.tree_top.specs.promise.Answer.{command_of};
ghost use Rattle.tree_top.specs.declared.command.Command.TheVariants as commands;
ghost use Rattle.facts.specs.Words.{among, plain, sixteen};

/// Options with texts, and flags.
pub fn option_words()
    ensures none { words_of [] ≡ Ok plain }
    ensures dashes { words_of (codes "--" ∷ []) ≡ Ok plain }
    ensures schema { words_of (codes "--schema" ∷ codes "a:l" ∷ []) ≡ Ok (record plain { schema = Some (codes "a:l") }) }
    ensures attached { words_of (codes "--schema=a:u;a:u" ∷ []) ≡ Ok (record plain { schema = Some (codes "a:u;a:u") }) }
    ensures both { words_of (codes "--audit" ∷ codes "--schema" ∷ codes "a:l" ∷ []) ≡ Ok (record plain { schema = Some (codes "a:l"); audit = true }) }
    ensures hyphen { words_of (codes "--schema" ∷ codes "-a:u" ∷ []) ≡ Err Refused }
    ensures attached_hyphen { words_of (codes "--schema=-a:u" ∷ []) ≡ Ok (record plain { schema = Some (codes "-a:u") }) }
    ensures empty_text { words_of (codes "--schema=" ∷ []) ≡ Ok (record plain { schema = Some [] }) }
    ensures empty_word_text { words_of (codes "--schema" ∷ [] ∷ []) ≡ Ok (record plain { schema = Some [] }) }
    ensures no_text { words_of (codes "--schema" ∷ []) ≡ Err Refused }
    ensures dashes_text { words_of (codes "--schema" ∷ codes "--" ∷ []) ≡ Err Refused }
    ensures repeated { words_of (codes "--schema" ∷ codes "a:u" ∷ codes "--schema" ∷ codes "a:u" ∷ []) ≡ Err Refused }
    ensures repeated_flag { words_of (codes "--audit" ∷ codes "--audit" ∷ []) ≡ Err Refused }
    ensures flag_value { words_of (codes "--audit=true" ∷ []) ≡ Err Refused }
    ensures null { words_of (codes "--null" ∷ codes "NA" ∷ []) ≡ Ok (record plain { null = Some (codes "NA") }) }
    ensures empty_null { words_of (codes "--null=" ∷ []) ≡ Ok (record plain { null = Some [] }) }
    ensures hyphen_null { words_of (codes "--null" ∷ codes "-x" ∷ []) ≡ Err Refused }
    ensures attached_hyphen_null { words_of (codes "--null=-x" ∷ []) ≡ Ok (record plain { null = Some (codes "-x") }) }
    ensures repeated_null { words_of (codes "--null" ∷ codes "a" ∷ codes "--null" ∷ codes "a" ∷ []) ≡ Err Refused }
{}

/// The size of a batch, and workers.
pub fn numbers()
    ensures batch { words_of (codes "--batch" ∷ codes "2" ∷ []) ≡ Ok (record plain { batch = 2 }) }
    ensures most_batch { words_of (codes "--batch=1000000" ∷ []) ≡ Ok (record plain { batch = 1000000 }) }
    ensures past_batch { words_of (codes "--batch=1000001" ∷ []) ≡ Err Refused }
    ensures no_batch { words_of (codes "--batch=0" ∷ []) ≡ Err Refused }
    ensures zero_first { words_of (codes "--batch=01" ∷ []) ≡ Err Refused }
    ensures plus_first { words_of (codes "--batch=+1" ∷ []) ≡ Err Refused }
    ensures minus_first { words_of (codes "--batch=-1" ∷ []) ≡ Err Refused }
    ensures other_last { words_of (codes "--batch=1x" ∷ []) ≡ Err Refused }
    ensures empty_batch { words_of (codes "--batch=" ∷ []) ≡ Err Refused }
    ensures repeated_batch { words_of (codes "--batch" ∷ codes "1" ∷ codes "--batch" ∷ codes "1" ∷ []) ≡ Err Refused }
    ensures workers { words_of (codes "--workers" ∷ codes "4" ∷ []) ≡ Ok (record plain { workers = 4 }) }
    ensures most_workers { words_of (codes "--workers=64" ∷ []) ≡ Ok (record plain { workers = 64 }) }
    ensures past_workers { words_of (codes "--workers=65" ∷ []) ≡ Err Refused }
    ensures no_workers { words_of (codes "--workers=0" ∷ []) ≡ Err Refused }
    ensures zero_first_workers { words_of (codes "--workers=04" ∷ []) ≡ Err Refused }
    ensures repeated_workers { words_of (codes "--workers" ∷ codes "1" ∷ codes "--workers" ∷ codes "1" ∷ []) ≡ Err Refused }
{}

/// A tree to check, and rows that are made.
pub fn words_together()
    ensures check { words_of (codes "--check" ∷ []) ≡ Ok (record plain { check = true }) }
    ensures check_among { words_of (codes "--check" ∷ codes "--batch" ∷ codes "2" ∷ codes "--workers" ∷ codes "3" ∷ codes "--null" ∷ codes "NA" ∷ codes "--audit" ∷ []) ≡ Ok (record plain { batch = 2; workers = 3; audit = true; check = true; null = Some (codes "NA") }) }
    ensures repeated_check { words_of (codes "--check" ∷ codes "--check" ∷ []) ≡ Err Refused }
    ensures check_stage { words_of (codes "--check" ∷ codes "dict=a" ∷ []) ≡ Err UsedWithCheck }
    ensures check_schema { words_of (codes "--schema=" ∷ codes "--check" ∷ []) ≡ Err UsedWithCheck }
    ensures check_batch { words_of (codes "--check" ∷ codes "a" ∷ codes "--batch=0" ∷ []) ≡ Err Refused }
    ensures selftest { words_of (codes "--selftest" ∷ codes "1" ∷ []) ≡ Ok (record plain { selftest = Some 1 }) }
    ensures most_selftest { words_of (codes "--selftest=1000000" ∷ []) ≡ Ok (record plain { selftest = Some 1000000 }) }
    ensures past_selftest { words_of (codes "--selftest" ∷ codes "1000001" ∷ []) ≡ Err Refused }
    ensures no_selftest { words_of (codes "--selftest" ∷ codes "0" ∷ []) ≡ Err Refused }
    ensures zero_first_selftest { words_of (codes "--selftest" ∷ codes "01" ∷ []) ≡ Err Refused }
    ensures repeated_selftest { words_of (codes "--selftest" ∷ codes "1" ∷ codes "--selftest" ∷ codes "1" ∷ []) ≡ Err Refused }
    ensures selftest_among { words_of among ≡ Ok (record plain { batch = 7; workers = 4; audit = true; selftest = Some 5; null = Some (codes "NA") }) }
    ensures made { made_of among ≡ Some 5 }
    ensures selftest_stage { words_of (codes "--selftest" ∷ codes "5" ∷ codes "dict=a" ∷ []) ≡ Err UsedWithSelftest }
    ensures selftest_schema { words_of (codes "--schema=" ∷ codes "--selftest" ∷ codes "5" ∷ []) ≡ Err UsedWithSelftest }
    ensures selftest_check { words_of (codes "--check" ∷ codes "--selftest" ∷ codes "5" ∷ []) ≡ Err UsedWithSelftest }
    ensures none_made { made_of (codes "--check" ∷ codes "--selftest" ∷ codes "5" ∷ []) ≡ None }
    ensures check_stage_selftest { words_of (codes "--check" ∷ codes "a" ∷ codes "--selftest" ∷ codes "1" ∷ []) ≡ Err UsedWithCheck }
    ensures selftest_number_stage { words_of (codes "--selftest" ∷ codes "0" ∷ codes "dict=a" ∷ []) ≡ Err Refused }
{}

/// Batches that are read ahead.
pub fn ahead()
    ensures ahead { words_of (codes "--ahead" ∷ codes "5" ∷ []) ≡ Ok (record plain { ahead = Some 5 }) }
    ensures most_ahead { words_of (codes "--ahead=64" ∷ []) ≡ Ok (record plain { ahead = Some 64 }) }
    ensures past_ahead { words_of (codes "--ahead" ∷ codes "65" ∷ []) ≡ Err Refused }
    ensures no_ahead { words_of (codes "--ahead" ∷ codes "0" ∷ []) ≡ Err Refused }
    ensures plus_ahead { words_of (codes "--ahead" ∷ codes "+5" ∷ []) ≡ Err Refused }
    ensures zero_first_ahead { words_of (codes "--ahead" ∷ codes "07" ∷ []) ≡ Err Refused }
    ensures repeated_ahead { words_of (codes "--ahead" ∷ codes "1" ∷ codes "--ahead" ∷ codes "1" ∷ []) ≡ Err Refused }
    ensures selftest_ahead { words_of (codes "--selftest" ∷ codes "5" ∷ codes "--ahead" ∷ codes "2" ∷ []) ≡ Ok (record plain { selftest = Some 5; ahead = Some 2 }) }
    ensures check_ahead { words_of (codes "--check" ∷ codes "--ahead" ∷ codes "2" ∷ []) ≡ Ok (record plain { check = true; ahead = Some 2 }) }
{}

/// Words that are no options.
pub fn stage_words()
    ensures stage { words_of (codes "select=a" ∷ []) ≡ Ok (record plain { stages = codes "select=a" ∷ [] }) }
    ensures among { words_of (codes "a" ∷ codes "--audit" ∷ codes "b" ∷ codes "--batch" ∷ codes "7" ∷ codes "a" ∷ []) ≡ Ok (record plain { batch = 7; audit = true; stages = codes "a" ∷ codes "b" ∷ codes "a" ∷ [] }) }
    ensures dashes_stage { words_of (codes "a" ∷ codes "--" ∷ codes "--audit" ∷ codes "--" ∷ []) ≡ Ok (record plain { stages = codes "a" ∷ codes "--audit" ∷ codes "--" ∷ [] }) }
    ensures sixteen { words_of sixteen ≡ Ok (record plain { stages = sixteen }) }
    ensures seventeen { words_of (codes "a" ∷ sixteen) ≡ Err TooManyStages }
    ensures check_seventeen { words_of (codes "--check" ∷ codes "a" ∷ sixteen) ≡ Err TooManyStages }
    ensures selftest_seventeen { words_of (codes "--selftest" ∷ codes "5" ∷ codes "a" ∷ sixteen) ≡ Err TooManyStages }
    ensures both_faults { words_of (codes "a" ∷ codes "--batch=0" ∷ sixteen) ≡ Err Refused }
    ensures empty_word { words_of ([] ∷ []) ≡ Ok (record plain { stages = [] ∷ [] }) }
    ensures hyphen_word { words_of (codes "-" ∷ []) ≡ Ok (record plain { stages = codes "-" ∷ [] }) }
    ensures short { words_of (codes "--aud" ∷ []) ≡ Err Refused }
    ensures help { words_of (codes "--help" ∷ []) ≡ Err Refused }
    ensures version { words_of (codes "-V" ∷ []) ≡ Err Refused }
{}

/// The words of arrowtree.
pub fn tree_words()
    ensures none { command_of [] ≡ Some commands.Rows }
    ensures union { command_of (codes "union" ∷ []) ≡ Some commands.Union }
    ensures tag { command_of (codes "tagdense" ∷ []) ≡ Some (commands.Tag true) }
    ensures nest { command_of (codes "nest" ∷ codes "0" ∷ []) ≡ Some (commands.Nest 0) }
    ensures last_column { command_of (codes "explode" ∷ codes "1023" ∷ []) ≡ Some (commands.Explode 1023) }
    ensures past_the_columns { command_of (codes "explode" ∷ codes "1024" ∷ []) ≡ None }
    ensures zero_first { command_of (codes "nest" ∷ codes "01" ∷ []) ≡ None }
    ensures no_column { command_of (codes "nest" ∷ []) ≡ None }
    ensures no_such_word { command_of (codes "rows" ∷ []) ≡ None }
    ensures one_word_more { command_of (codes "nest" ∷ codes "0" ∷ codes "0" ∷ []) ≡ None }
{}
