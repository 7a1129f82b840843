//! Chapter 05: the chunks of links, and how they end.
ghost use Rattle.std.specs.Prelude.{◌≡◌, ◌∷◌, [], codes, None, Some};
ghost use Rattle.data_types.specs.declared.row_fault.RowFault.TheVariants as row;
ghost use Rattle.facts.specs.Stages.{asks, batch_ending, batch_texts, by, link_rows, long, of_size, one};

/// The chunks of links.
pub fn link_chunks()
    ensures sliced { link_rows (of_size 2 (by (asks (codes "n") long ∷ []) (codes "slice=1,3" ∷ []))) (codes "n\n1\n2\n3\n4\n5\n") ≡
        ((one 1 ∷ one 2 ∷ []) ∷ (one 3 ∷ one 4 ∷ []) ∷ (one 5 ∷ []) ∷ []) ∷ ((one 2 ∷ []) ∷ (one 3 ∷ one 4 ∷ []) ∷ []) ∷ [] }
    ensures empty_chunk_is_kept { link_rows (of_size 2 (by (asks (codes "n") long ∷ []) (codes "filter=n,gt,2" ∷ []))) (codes "n\n1\n2\n3\n") ≡
        ((one 1 ∷ one 2 ∷ []) ∷ (one 3 ∷ []) ∷ []) ∷ ([] ∷ (one 3 ∷ []) ∷ []) ∷ [] }
    ensures refused { link_rows (of_size 2 (by (asks (codes "n") long ∷ []) (codes "totals=n" ∷ []))) (codes "n\n1\n2\n3\nx\n") ≡
        ((one 1 ∷ one 2 ∷ []) ∷ []) ∷ [] ∷ [] }
{}

/// The batches of a text.
pub fn batches()
    ensures good { batch_texts (codes "n\n1\n2\n3\n") 2 ≡ ((codes "1" ∷ codes "2" ∷ []) ∷ (codes "3" ∷ []) ∷ []) }
    ensures none { batch_texts (codes "n\n") 2 ≡ [] }
    ensures late { batch_texts (codes "n\n1\n2\n3\nx,y\n") 2 ≡ ((codes "1" ∷ codes "2" ∷ []) ∷ []) }
    ensures ragged { batch_ending (codes "n\n1\n2\n3\nx,y\n") 2 ≡ Some (row.Ragged 4 2) }
    ensures end { batch_ending (codes "n\n1\n2\n") 2 ≡ None }
{}
