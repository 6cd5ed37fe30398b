//! Worked examples of files, reads and sinks.
//!
//! Each function has an empty body: its contract is the law.
ghost use Rattle.std.specs.Prelude.{◌≡◌, ◌∷◌, [], ℕ, List, codes};
ghost use Rattle.ul_files.specs.Examples.{files_after, read_at, sink_after, three_files};
ghost use Rattle.ul_files.specs.Files.{Agrees, absent, content, longer, there, untold};
ghost use Rattle.ul_files.specs.MemFiles.{MemRead, reads_here};
ghost use Rattle.ul_files.specs.MemSink.{MemWrite};
ghost use Rattle.ul_files.specs.declared.files.ReadRefused.TheVariants as read;
ghost use Rattle.ul_files.specs.declared.sink.SinkRefused.TheVariants as write;

/// Worked examples of what files hold: the first pair of a path counts.
pub fn content_examples()
    ensures first { content three_files (codes "p") ≡ Some (codes "12345") }
    ensures empty { content three_files (codes "q") ≡ Some [] }
    ensures absent { content three_files (codes "r") ≡ None }
    ensures longer { content three_files (codes "pp") ≡ None }
{}

/// Worked examples of maps that agree with reads, and of such that don't.
pub fn agreeing_examples()
    ensures nothing { Agrees three_files [] }
    ensures bytes { Agrees three_files (read_at (codes "p") (there (codes "12345")) ∷ []) }
    ensures empty { Agrees three_files (read_at (codes "q") (there []) ∷ []) }
    ensures none { Agrees three_files (read_at (codes "r") absent ∷ read_at (codes "p") untold ∷ []) }
    ensures long { Agrees three_files (read_at (codes "p") (longer 4) ∷ []) }
    ensures second_pair { Agrees three_files (read_at (codes "p") (there (codes "other")) ∷ []) → ⊥ }
    ensures empty_is_there { Agrees three_files (read_at (codes "q") absent ∷ []) → ⊥ }
    ensures all { Agrees three_files (read_at (codes "q") (there []) ∷ read_at (codes "r") (there []) ∷ []) → ⊥ }
    ensures not_longer { Agrees three_files (read_at (codes "p") (longer 5) ∷ []) → ⊥ }
{}

/// Worked examples of reads of files in memory, of which the second read fails.
pub fn read_examples()
    ensures absent { MemRead (files_after 0 0 None []) (files_after 1 0 None (read_at (codes "r") absent ∷ []))
        (codes "r") 9 (Ok None) }
    ensures failed { MemRead (files_after 1 0 None [])
        (files_after 2 1 (Some (codes "q")) (read_at (codes "q") untold ∷ [])) (codes "q") 9 (Err read.Failed) }
    ensures only_then { MemRead (files_after 0 0 None [])
        (files_after 1 1 (Some (codes "q")) (read_at (codes "q") untold ∷ [])) (codes "q") 9 (Err read.Failed) → ⊥ }
    ensures then_so { MemRead (files_after 1 0 None []) (files_after 2 0 None (read_at (codes "r") absent ∷ []))
        (codes "r") 9 (Ok None) → ⊥ }
    ensures counted { MemRead (files_after 0 0 None []) (files_after 0 0 None (read_at (codes "r") absent ∷ []))
        (codes "r") 9 (Ok None) → ⊥ }
    ensures noted { MemRead (files_after 0 0 None []) (files_after 1 0 None []) (codes "r") 9 (Ok None) → ⊥ }
{}

/// Worked examples of writes to a sink in memory, of which the second write fails after three bytes.
pub fn write_examples()
    ensures whole { MemWrite (sink_after (codes "a") 0 0 []) (sink_after (codes "abc") 1 0 (codes "bc" ∷ []))
        (codes "bc") (Ok tt) }
    ensures part { MemWrite (sink_after [] 1 0 []) (sink_after (codes "abc") 2 1 (codes "abcde" ∷ []))
        (codes "abcde") (Err write.Failed) }
    ensures short { MemWrite (sink_after [] 1 0 []) (sink_after (codes "ab") 2 1 (codes "ab" ∷ []))
        (codes "ab") (Err write.Failed) }
    ensures not_whole { MemWrite (sink_after [] 1 0 []) (sink_after (codes "abcde") 2 0 (codes "abcde" ∷ []))
        (codes "abcde") (Ok tt) → ⊥ }
    ensures only_then { MemWrite (sink_after [] 0 0 []) (sink_after (codes "abc") 1 1 (codes "abcde" ∷ []))
        (codes "abcde") (Err write.Failed) → ⊥ }
    ensures one_piece { MemWrite (sink_after [] 0 0 [])
        (sink_after (codes "ab") 1 0 (codes "a" ∷ codes "b" ∷ [])) (codes "ab") (Ok tt) → ⊥ }
{}
