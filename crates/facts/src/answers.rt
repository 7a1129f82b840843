//! Chapter 00: what a run answers to texts that are written out.
ghost use Rattle.std.specs.Prelude.{◌∷◌, ◌++◌, [], codes};
ghost use Rattle.run_model.specs.promise.Answer.{Fault, Table, Text};
ghost use Rattle.facts.specs.Answers.{asking};
ghost use Rattle.run_model.specs.declared.fault.RunFault.TheVariants as run;
ghost use Rattle.run_model.specs.RunAnswer.{AnswersBytes};

/// The answers to texts that are written out here.
pub fn text_answers()
    ensures null_field { AnswersBytes (Table (asking [])) (codes "a,b\n1,\n") (Text (codes "a,b\n1,\n")) }
    ensures null_alone { AnswersBytes (Table (asking [])) (codes "x\n\"\"\n") (Text (codes "x\n\"\"\n")) }
    ensures header_alone { AnswersBytes (Table (asking [])) (codes "a,b\n") (Text (codes "a,b\n")) }
    ensures no_header { AnswersBytes (Table (asking [])) [] (Fault run.NoHeader) }
    ensures name_twice { AnswersBytes (Table (asking [])) (codes "a,a\n") (Fault (run.HeaderTwice 2)) }
    ensures not_text { AnswersBytes (Table (asking [])) (codes "a\ncaf" ++ 0xff ∷ 10 ∷ []) (Fault (run.Field 1 1)) }
    ensures ragged { AnswersBytes (Table (asking [])) (codes "a,b\n1\n") (Fault (run.Ragged 1 1)) }
    ensures marked { AnswersBytes (Table (asking (codes "NA"))) (codes "a,b\nNA,\n") (Text (codes "a,b\nNA,\n")) }
    ensures mark_and_quotes { AnswersBytes (Table (asking [])) (0xef ∷ 0xbb ∷ 0xbf ∷ codes "a\r\n\"x,y\"\r\n") (Text (codes "a\n\"x,y\"\n")) }
{}
