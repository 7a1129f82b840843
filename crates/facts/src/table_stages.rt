//! Chapter 04: texts of stages, plans, and what stages make of a table.
ghost use Rattle.std.specs.Prelude.{◌≡◌, ◌∷◌, [], codes, Ok, Err};
ghost use Rattle.data_types.specs.declared.row_fault.RowFault.TheVariants as row;
ghost use Rattle.facts.specs.Stages.{asks, by, long, of_size, outcome, BadPlan, BadStage, chain, dict_text, marked, payments, payment_types, text_of, BadRow, Written};
ghost use Rattle.stage_model.specs.promise.StageGrammar.{stage_of};
ghost use Rattle.stage_model.specs.declared.fault.PlanFault.TheVariants as plan;
ghost use Rattle.stage_model.specs.declared.fault.PlanRule.TheVariants as rules;
ghost use Rattle.stage_model.specs.declared.fault.StageFault.TheVariants.{UnknownStage, BadArguments};
ghost use Rattle.stage_model.specs.declared.stage.StageText.TheVariants as texts;
ghost use Rattle.stage_model.specs.declared.stage.Test.TheVariants as tests;

/// Texts of stages as the definitions read them.
pub fn stage_texts()
    ensures names { stage_of (codes "select=a,,b") ≡ Ok (texts.Select (codes "a" ∷ [] ∷ codes "b" ∷ [])) }
    ensures empty_name { stage_of (codes "select=") ≡ Ok (texts.Select ([] ∷ [])) }
    ensures equals_in_a_name { stage_of (codes "drop=a=b") ≡ Ok (texts.Drop (codes "a=b" ∷ [])) }
    ensures unknown { stage_of (codes "sort=a") ≡ Err UnknownStage }
    ensures unknown_before_arguments { stage_of (codes "sort") ≡ Err UnknownStage }
    ensures no_text { stage_of [] ≡ Err UnknownStage }
    ensures no_arguments { stage_of (codes "select") ≡ Err BadArguments }
    ensures like { stage_of (codes "filter=a,like,x") ≡ Err BadArguments }
    ensures lone { stage_of (codes "filter=a,null") ≡ Ok (texts.Filter (codes "a") tests.Null []) }
    ensures lone_and_more { stage_of (codes "filter=a,null,x") ≡ Err BadArguments }
    ensures comparison_alone { stage_of (codes "filter=a,eq") ≡ Err BadArguments }
    ensures constant { stage_of (codes "filter=a,eq,x,=y") ≡ Ok (texts.Filter (codes "a") tests.Eq (codes "x,=y")) }
    ensures empty_constant { stage_of (codes "filter=a,eq,") ≡ Ok (texts.Filter (codes "a") tests.Eq []) }
    ensures window { stage_of (codes "slice=007,9223372036854775807") ≡ Ok (texts.Slice 7 9223372036854775807) }
    ensures past_the_window { stage_of (codes "slice=0,9223372036854775808") ≡ Err BadArguments }
    ensures twenty_digits { stage_of (codes "slice=00000000000000000001,1") ≡ Err BadArguments }
    ensures signed { stage_of (codes "slice=+1,1") ≡ Err BadArguments }
    ensures pack { stage_of (codes "pack=p,a") ≡ Ok (texts.Pack (codes "p") (codes "a" ∷ [])) }
    ensures pack_of_none { stage_of (codes "pack=p") ≡ Err BadArguments }
    ensures unpack_of_two { stage_of (codes "unpack=p,q") ≡ Err BadArguments }
    ensures dict { stage_of (codes "dict=a") ≡ Ok (texts.Dict (codes "a")) }
    ensures dict_of_two { stage_of (codes "dict=a,b") ≡ Err BadArguments }
    ensures plain { stage_of (codes "plain=a") ≡ Ok (texts.Plain (codes "a")) }
    ensures plain_alone { stage_of (codes "plain") ≡ Err BadArguments }
    ensures totals { stage_of (codes "totals=a,b") ≡ Ok (texts.Totals (codes "a" ∷ codes "b" ∷ [])) }
    ensures totals_alone { stage_of (codes "totals") ≡ Err BadArguments }
{}

/// Stages that are refused, by their texts and over columns.
pub fn plans()
    ensures unknown { outcome (by [] (codes "sort=a" ∷ [])) (codes "a,b\n1,\n") ≡ BadStage 1 UnknownStage }
    ensures arguments { outcome (by [] (codes "filter=a,like,x" ∷ [])) (codes "a,b\n1,\n") ≡ BadStage 1 BadArguments }
    ensures no_column { outcome (by [] (codes "select=q" ∷ [])) (codes "a,b\n1,\n") ≡ BadPlan (plan.At 1 rules.NoColumn) }
    ensures none_left { outcome (by [] (codes "drop=a,b" ∷ [])) (codes "a,b\n1,\n") ≡ BadPlan (plan.At 1 rules.NoColumns) }
    ensures nested { outcome (by [] (codes "pack=p,a,c" ∷ [])) (codes "a,b,c\n1,2,3\n") ≡ BadPlan (plan.At 2 rules.NestedOutput) }
    ensures named_twice { outcome (by [] (codes "select=a,a" ∷ [])) (codes "a,b\n1,2\n") ≡ BadPlan (plan.At 1 rules.SameName) }
    ensures twice_after { outcome (by [] (codes "pack=b,a" ∷ [])) (codes "a,b\n1,2\n") ≡ BadPlan (plan.At 1 rules.SameName) }
    ensures second_stage { outcome (by [] (codes "drop=a" ∷ codes "select=a" ∷ [])) (codes "a,b\n1,2\n") ≡ BadPlan (plan.At 2 rules.NoColumn) }
    ensures dictionary { outcome (by [] (codes "dict=k" ∷ codes "filter=k,eq,x" ∷ [])) (codes "k\nx\n") ≡ BadPlan (plan.At 2 rules.WrongType) }
    ensures text_totals { outcome (by [] (codes "totals=a" ∷ [])) (codes "a\nx\n") ≡ BadPlan (plan.At 1 rules.WrongType) }
    ensures empty_number { outcome (by (asks (codes "a") long ∷ []) (codes "filter=a,eq," ∷ [])) (codes "a\n1\n") ≡ BadPlan (plan.At 1 rules.BadConstant) }
{}

/// Runs with the blocks and nodes that they make.
pub fn stage_runs()
    ensures no_stage { outcome (by [] []) (codes "a,b\n1,\n") ≡ Written (codes "a,b\n1,\n") 4 6 }
    ensures no_row { outcome (by [] []) (codes "a,b\n") ≡ Written (codes "a,b\n") 0 3 }
    ensures extremes { text_of (outcome (by (asks (codes "id") long ∷ []) (codes "totals=id" ∷ []))
        (codes "id\n-9223372036854775808\n-9223372036854775808\n")) ≡
        codes "id_count,id_sum,id_min,id_max\n2,-18446744073709551616,-9223372036854775808,-9223372036854775808\n" }
    ensures totals_of_none { outcome (by (asks (codes "id") long ∷ []) (codes "totals=id" ∷ [])) (codes "id\n") ≡
        Written (codes "id_count,id_sum,id_min,id_max\n0,0,,\n") 6 12 }
    ensures filtered { outcome (by (asks (codes "n") long ∷ []) (codes "filter=n,gt,2" ∷ [])) (codes "n\n1\n2\n3\n4\n5\n") ≡
        Written (codes "n\n3\n4\n5\n") 2 8 }
    ensures sliced { outcome (of_size 2 (by (asks (codes "n") long ∷ []) (codes "slice=1,3" ∷ []))) (codes "n\n1\n2\n3\n4\n5\n") ≡
        Written (codes "n\n2\n3\n4\n") 3 10 }
    ensures late_record_is_refused { outcome (of_size 2 (by (asks (codes "n") long ∷ []) (codes "slice=1,3" ∷ []))) (codes "n\n1\n2\n3\n4\nx\n") ≡
        BadRow (row.Field 5 1) }
    ensures dictionary { outcome (by [] (codes "dict=k" ∷ [])) (codes "k,v\nx,1\n,2\ny,3\nx,4\n") ≡ Written (codes "k,v\nx,1\n,2\ny,3\nx,4\n") 9 13 }
    ensures plain_again { text_of (outcome (by [] (codes "dict=k" ∷ codes "plain=k" ∷ [])) (codes "k,v\nx,1\n,2\ny,3\nx,4\n")) ≡
        codes "k,v\nx,1\n,2\ny,3\nx,4\n" }
    ensures packed { text_of (outcome (by [] (codes "pack=p,a,c" ∷ codes "unpack=p" ∷ [])) (codes "a,b,c\n1,2,3\n")) ≡ codes "b,a,c\n2,1,3\n" }
    ensures dropped { text_of (outcome (by [] (codes "drop=a,c" ∷ [])) (codes "a,b,c\n1,2,3\n")) ≡ codes "b\n2\n" }
    ensures selected { outcome (by payment_types (codes "select=id,name,paid" ∷ codes "filter=paid,eq,true" ∷ codes "dict=name" ∷ [])) payments ≡
        Written (codes "id,name,paid\n1,item1,true\n3,item3,true\n") 12 31 }
    ensures all_kinds { outcome (by payment_types chain) payments ≡
        Written (codes "id_count,id_sum,id_min,id_max,amount_count,amount_sum,amount_min,amount_max\n2,4,1,3,2,4.50,1.25,3.25\n") 22 69 }
{}

/// Runs with a mark for null.
pub fn marked_runs()
    ensures mark { outcome (marked (codes "NA") (by [] [])) (codes "a,b\nNA,\n") ≡ Written (codes "a,b\nNA,\n") 3 6 }
    ensures empty_number { outcome (marked (codes "NA") (by (asks (codes "a") long ∷ []) [])) (codes "a\n\"\"\n") ≡ BadRow (row.Field 1 1) }
    ensures empty_constant { text_of (outcome (marked (codes "NA") (by [] (codes "filter=a,eq," ∷ []))) (codes "a,b\n,1\nNA,2\n")) ≡ codes "a,b\n,1\n" }
    ensures totals_of_none { text_of (outcome (marked (codes "~") (by (asks (codes "id") long ∷ []) (codes "totals=id" ∷ []))) (codes "id\n")) ≡
        codes "id_count,id_sum,id_min,id_max\n0,0,~,~\n" }
{}

/// A source that is no text, whose column has a dictionary.
pub fn dictionary_runs()
    ensures plain { dict_text (codes "filter=n,gt,1" ∷ codes "plain=k" ∷ []) ≡ codes "k,n\ny,2\nx,3\n" }
{}
