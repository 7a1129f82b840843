//! Chapter 08: texts of trees, with their trees or their first fault.
ghost use Rattle.facts.specs.Trees.{SmallTree, OtherEnds, Cuts, OneLineMore, NoArray, SmallReport, Tokens, Numbers, BufferLines, FallingOffsets, IndexOutside, RefusedFormat, Views, MisplacedView, WrongPrefix};

/// A law: what the definitions say of small texts (`specs/Worked.antt`).
pub fn tree_texts()
    ensures small_tree { SmallTree }
    ensures other_ends { OtherEnds }
    ensures cuts { Cuts }
    ensures one_line_more { OneLineMore }
    ensures no_array { NoArray }
    ensures report { SmallReport }
    ensures tokens { Tokens }
    ensures numbers { Numbers }
    ensures buffers { BufferLines }
    ensures falling_offsets { FallingOffsets }
    ensures index_outside { IndexOutside }
    ensures refused_format { RefusedFormat }
    ensures views { Views }
    ensures misplaced_view { MisplacedView }
    ensures wrong_prefix { WrongPrefix }
{}
