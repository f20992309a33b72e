ghost use Rattle.std.specs.Prelude.{◌≡◌, ◌≢◌, ◌⊎◌, ◌↔◌, ℕ, List, [], true, false, IfSome, Some, None};
ghost use Rattle.tk_disk.specs.Crash.{Within, Only};
ghost use Rattle.tk_disk.specs.Disk.{Rose};
ghost use Rattle.tk_disk.specs.Folder.{NoneOut, or_empty};
ghost use Rattle.tk_util.specs.Calls.{Spares};
ghost use Rattle.tk_util.specs.CutShort.{CutsCommandShort};
ghost use Rattle.tk_util.specs.Interrupted.{InterruptsCommand};
ghost use Rattle.tk_util.specs.Leaves.{OthersWithin};
ghost use Rattle.tk_util.specs.Making.{IsMakingMoment, Makes};
ghost use Rattle.tk_util.specs.Words.{Command, command_of, words_of};
ghost use Rattle.tk_util.specs.Ran.{Ran, EndsClearly, RoseOf, file_of, writes, IsRunStatus, IsEnd};

use crate::file::run_on_file;
use crate::restore::run_restore;
use crate::words::{Asked, read_words};
use std::alloc::Global;
use tk_disk::Folder;
use tk_io::{Sink, Source};
use tk_status::Finish;

/// Runs a command. The words don't hold the program's name.
pub fn run_util<F: Folder, R: Source, W: Sink>(
    alloc: Global,
    words: &[String],
    folder: &mut F,
    source: &mut R,
    out: &mut W,
) -> Finish
    requires { NoneOut (F.is_out folder.old) }
    // the answer, and what it leaves
    ensures usage { result.status ≡ 1 ↔ command_of (words_of words.now) ≡ None }
    ensures untouched { result.status ≡ 1
        → ((name : List ℕ) → F.file folder.new name ≡ F.file folder.old name)
        × (W.held out.new ≡ W.held out.old) }
    ensures ran { (c : Command) → command_of (words_of words.now) ≡ Some c
        → F.tells folder.old ≡ true
        → Ran c
        (record { files = F.file folder.old; left = R.left source.old; held = W.held out.old })
        (record { files = F.file folder.new; left = R.left source.new; held = W.held out.new })
        result }
    ensures ends_clearly { (c : Command) → command_of (words_of words.now) ≡ Some c
        → F.tells folder.old ≡ true
        → EndsClearly c
        (record { files = F.file folder.old; left = R.left source.old; held = W.held out.old })
        (record { files = F.file folder.new; left = R.left source.new; held = W.held out.old })
        ⊎ RoseOf c (F.disk_faults folder.old) (F.disk_faults folder.new) }
    // what a crash leaves
    ensures spared { (c : Command) → command_of (words_of words.now) ≡ Some c → writes c ≡ true
        → F.tells folder.old ≡ true
        → Spares (or_empty (F.file folder.old (file_of c))) (F.leaves folder.old (file_of c))
        (F.leaves folder.new (file_of c)) }
    ensures still { (c : Command) → command_of (words_of words.now) ≡ Some c → (writes c ≡ false)
        ⊎ ((result.status ≡ 3) ⊎ (result.status ≡ 7))
        → Within (F.leaves folder.old (file_of c)) (F.leaves folder.new (file_of c)) }
    ensures durable { (c : Command) → command_of (words_of words.now) ≡ Some c → writes c ≡ true
        → (result.status ≡ 0) ⊎ (result.status ≡ 6) → F.tells folder.old ≡ true
        → IfSome (F.file folder.new (file_of c)) (λ f. Only f (F.leaves folder.new (file_of c))) }
    ensures crashes { (c : Command) → command_of (words_of words.now) ≡ Some c
        → F.tells folder.old ≡ true
        → InterruptsCommand c (or_empty (F.file folder.old (file_of c)))
        (F.moment_of folder.old (file_of c)) (F.moment_of folder.new (file_of c))
        (F.leaves folder.old (file_of c)) (F.left_since folder.old (file_of c))
        (F.left_since folder.new (file_of c)) (F.left_with folder.new (file_of c)) }
    ensures cut_short { (c : Command) → command_of (words_of words.now) ≡ Some c
        → F.tells folder.old ≡ true
        → CutsCommandShort c (or_empty (F.file folder.old (file_of c)))
        (F.moment_of folder.old (file_of c)) (F.moment_of folder.new (file_of c))
        (F.past_of folder.old (file_of c)) (F.leaves folder.old (file_of c))
        (F.left_with folder.new (file_of c)) }
    ensures makes { (c : Command) → command_of (words_of words.now) ≡ Some c
        → F.tells folder.old ≡ true → or_empty (F.file folder.old (file_of c)) ≡ []
        → Makes c (F.file folder.old) (F.past_of folder.old (file_of c))
        (F.moment_of folder.old (file_of c)) (F.moment_of folder.new (file_of c))
        (F.left_with folder.new (file_of c)) }
    ensures made { (c : Command) → command_of (words_of words.now) ≡ Some c
        → F.tells folder.old ≡ true → or_empty (F.file folder.old (file_of c)) ≡ []
        → IfSome (F.file folder.new (file_of c)) (λ f.
        IsMakingMoment c (F.file folder.old) (F.past_of folder.old (file_of c))
        (F.past_of folder.new (file_of c), f)) }
    ensures others { (c : Command) → command_of (words_of words.now) ≡ Some c
        → OthersWithin (file_of c) (F.leaves folder.old) (F.leaves folder.new) }
    // ends and counts
    ensures left { R.left source.new ≡ R.left source.old }
    ensures fields { IsEnd result }
    ensures status { (c : Command) → command_of (words_of words.now) ≡ Some c
        → IsRunStatus c result.status }
    ensures clean { (c : Command) → command_of (words_of words.now) ≡ Some c → result.status ≡ 0
        → (F.fault_count folder.new ≡ F.fault_count folder.old)
        × (F.disk_faults folder.new (file_of c) ≡ F.disk_faults folder.old (file_of c))
        × (W.fault_count out.new ≡ W.fault_count out.old) }
    ensures fault { result.status ≡ 4 → Rose (F.fault_count folder.old) (F.fault_count folder.new)
        ⊎ (((name : List ℕ) × Rose (F.disk_faults folder.old name) (F.disk_faults folder.new name))
        ⊎ Rose (W.fault_count out.old) (W.fault_count out.new)) }
    ensures met { result.status ≢ 3 → result.status ≢ 4 → result.status ≢ 7
        → F.fault_count folder.new ≡ F.fault_count folder.old }
    ensures disks_met { result.status ≢ 3 → result.status ≢ 4 → result.status ≢ 7 → (name : List ℕ)
        → F.disk_faults folder.new name ≡ F.disk_faults folder.old name }
    // the folder
    ensures tells { F.tells folder.new ≡ F.tells folder.old }
    ensures closed { NoneOut (F.is_out folder.new) }
{
    let _ = source;
    match read_words(words) {
        None => Finish::with(1),
        Some(Asked::OnFile(command)) => run_on_file(alloc, command, folder, out),
        Some(Asked::Restore(restore)) => run_restore(alloc, restore, folder),
    }
}
