ghost use Rattle.std.specs.Prelude.{◌≡◌, ◌≢◌, ◌≤◌, ℕ, List, [], Bool, true, false, IsSome, IfOk, IfSome, IfNone, OnOk, OnErr, OnSome, IsErrOf, Some, None};
ghost use Rattle.std.specs.declared.option.Option.{Option};
ghost use Rattle.tk_disk.specs.Disk.{HasCause, HasFaultCause};
ghost use Rattle.tk_disk.specs.Folder.{or_empty, SameBut, SameHistory, KeepsHistory};
ghost use Rattle.tk_disk.specs.Past.{Past};

use crate::{Disk, DiskError};

/// Disks by their names. A disk is taken out, used, and given back under its name.
pub trait Folder {
    type D: Disk + Send;

    /// The folder tells what its files hold.
    ghost tells: { Self → Bool };

    /// What the file at a name holds, where there is one.
    ghost file: { Self → List ℕ → Option (List ℕ) };

    /// The disk of this name is out.
    ghost is_out: { Self → List ℕ → Bool };

    /// How often a call has failed.
    ghost fault_count: { Self → ℕ };

    /// The count of faults of the disk last given back under a name, 0 where there was none.
    ghost disk_faults: { Self → List ℕ → ℕ };

    /// What a crash now may leave at a name. Of a file whose disk is out, its disk says it.
    ghost leaves: { Self → List ℕ → List ℕ → Type 0 };

    /// The moment of a file, as its disk counts it.
    ghost moment_of: { Self → List ℕ → ℕ };

    /// What a crash at some moment from one on may have left at a name.
    ghost left_since: { Self → List ℕ → ℕ → List ℕ → Type 0 };

    /// The past of a file, as its disk tells it. The past of an absent one is that of an empty one.
    ghost past_of: { Self → List ℕ → Past };

    /// At some moment from one on this was the past of a name's file, and a crash might have left that.
    ghost left_with: { Self → List ℕ → ℕ → Past × List ℕ → Type 0 };

    fn faults(&self) -> u64
        ensures { result ≡ fault_count self.now };

    /// The disk of a file. An absent file gives none, or with `create` an empty disk.
    fn take(&mut self, name: &str, create: bool) -> Result<Option<Self::D>, DiskError>
        requires home { is_out self.old name.now ≡ false }
        ensures absent { IfOk result (λ o. IfNone o ((create ≡ false)
            × (tells self.old ≡ true → file self.old name.now ≡ None))) }
        ensures there { IfOk result (λ o. OnSome o (create ≡ false → tells self.old ≡ true
            → IsSome (file self.old name.now))) }
        ensures image { IfOk result (λ o. IfSome o (λ d. tells self.old ≡ true
            → Self.D.image d ≡ Some (or_empty (file self.old name.now)))) }
        ensures count { IfOk result (λ o. IfSome o (λ d. Self.D.fault_count d ≡ disk_faults self.old
            name.now)) }
        ensures out { IfOk result (λ o. OnSome o (is_out self.new name.now ≡ true)) }
        ensures none_out { IfOk result (λ o. IfNone o (is_out self.new name.now ≡ false)) }
        ensures err_out { OnErr result (is_out self.new name.now ≡ false) }
        ensures others_out { SameBut name.now (is_out self.old) (is_out self.new) }
        ensures others { SameBut name.now (file self.old) (file self.new) }
        ensures none_same { IfOk result (λ o. IfNone o (file self.new name.now ≡ file self.old name.now)) }
        ensures err_same { OnErr result (file self.new name.now ≡ file self.old name.now) }
        ensures counts { (m : List ℕ) → disk_faults self.new m ≡ disk_faults self.old m }
        ensures tells { tells self.new ≡ tells self.old }
        ensures cause { HasFaultCause (fault_count self.old) (fault_count self.new) result }
        ensures unmet { IsErrOf result DiskError.NoMemory → fault_count self.new ≡ fault_count
            self.old }
        ensures crash { IfOk result (λ o. IfSome o (λ d.
            SameHistory (moment_of self.old name.now) (Self.D.moment d)
            (leaves self.old name.now) (Self.D.may_leave d)
            (left_since self.old name.now) (Self.D.left_since d)
            (past_of self.old name.now) (Self.D.past d)
            (left_with self.old name.now) (Self.D.left_with d))) }
        ensures none_crash { IfOk result (λ o. IfNone o (
            KeepsHistory moment_of leaves left_since past_of left_with self.old self.new name.now)) }
        ensures err_crash { OnErr result (
            KeepsHistory moment_of leaves left_since past_of left_with self.old self.new name.now) }
        ensures others_crash { (m : List ℕ) → m ≢ name.now →
            KeepsHistory moment_of leaves left_since past_of left_with self.old self.new m };

    /// Puts a disk back under its name, also where it answers a fault.
    fn give(&mut self, name: &str, disk: Self::D) -> Result<(), DiskError>
        requires out { is_out self.old name.now ≡ true }
        ensures here { tells self.old ≡ true → file self.new name.now ≡ Self.D.image disk }
        ensures count { disk_faults self.new name.now ≡ Self.D.fault_count disk }
        ensures home { is_out self.new name.now ≡ false }
        ensures others_out { SameBut name.now (is_out self.old) (is_out self.new) }
        ensures others { SameBut name.now (file self.old) (file self.new) }
        ensures others_count { SameBut name.now (disk_faults self.old) (disk_faults self.new) }
        ensures tells { tells self.new ≡ tells self.old }
        ensures cause { HasCause (fault_count self.old) (fault_count self.new) result }
        ensures crash { SameHistory (Self.D.moment disk) (moment_of self.new name.now)
            (Self.D.may_leave disk) (leaves self.new name.now)
            (Self.D.left_since disk) (left_since self.new name.now)
            (Self.D.past disk) (past_of self.new name.now)
            (Self.D.left_with disk) (left_with self.new name.now) }
        ensures others_crash { (m : List ℕ) → m ≢ name.now →
            KeepsHistory moment_of leaves left_since past_of left_with self.old self.new m };

    /// What a file holds is one of the images.
    ghost reads_left: { (folder : Self) (name f : List ℕ) → file folder name ≡ Some f
        → leaves folder name f };

    /// This moment is one of those since an earlier one.
    ghost counts_now: { (folder : Self) (name : List ℕ) (t : ℕ) (c : List ℕ)
        → t ≤ moment_of folder name → leaves folder name c → left_since folder name t c };

    /// Since this moment there is no other.
    ghost only_now: { (folder : Self) (name c : List ℕ)
        → left_since folder name (moment_of folder name) c → leaves folder name c };

    /// With the past of this moment, too.
    ghost counts_with: { (folder : Self) (name : List ℕ) (t : ℕ) (c : List ℕ)
        → t ≤ moment_of folder name → leaves folder name c
        → left_with folder name t (past_of folder name, c) };

    ghost only_with: { (folder : Self) (name : List ℕ) (x : Past × List ℕ)
        → left_with folder name (moment_of folder name) x → (x.0 ≡ past_of folder name)
        × leaves folder name x.1 };

    /// What was left with a past was left.
    ghost since_with: { (folder : Self) (name : List ℕ) (t : ℕ) (x : Past × List ℕ)
        → left_with folder name t x → left_since folder name t x.1 };
}
