ghost use Rattle.std.specs.Prelude.{◌≡◌, ◌+◌, ◌-◌, ◌≤◌, ◌<◌, ◌^◌, ℕ, Bool, true, false, List, [], ◌∷◌, ◌++◌, length, Option, Some, None, IfOk, OnOk, OnErr, IfSome, if◌then◌else◌};
ghost use Rattle.std.specs.Option.{is_some, option_map};
ghost use Rattle.tk_model.specs.declared.record.Group.{Group};
ghost use Rattle.tk_model.specs.declared.record.Change.{Change};
ghost use Rattle.tk_model.specs.declared.record.Pair.{Pair};
ghost use Rattle.tk_model.specs.Records.{find, first_within, last_within, after, replay, Rising, IsClearAlone, AllHeld};
ghost use Rattle.tk_store.specs.Store.{StoreConstants, StoreView, First, groups_made_by, floor_after, extents_need, AllFitWithin, ended_by};
ghost use Rattle.tk_store.specs.Store.{HasCause, NeverFull, OkOrFault, UnlessFault, OnFull, OnNoMemory, TellsFull};
ghost use Rattle.tk_store.specs.Store.{Gives, GivesInto, SameContents, IsWhole, Keeps, KeepsSince, LeavesSafe, OnlyLooks, GoesOn};

use crate::StoreError;
use tk_model::{Bound, Bytes, ChangeList, Order, Pair};

/// A store for one caller.
pub trait SeqStore {
    /// What never changes.
    ghost constants: { Self → StoreConstants };

    /// What calls change.
    ghost store_view: { Self → StoreView };

    /// The store stands for what its file held at the opening, the groups applied since, and how many of them were there at the last hard sync.
    ghost stands: { Self → First → List Group → ℕ → Type 0 };

    /// A list of changes is prepared.
    ghost reserved: { Self → List Change → Type 0 };

    /// The moment, as one number that doesn't fall: of a store over several disks the sum of theirs.
    ghost moment: { Self → ℕ };

    /// At each moment since a time every untorn image restores to the opening followed by a front of these groups, at least so many of them.
    ghost safe: { Self → ℕ → First → List Group → ℕ → Type 0 };

    /// It stands for the last three, and at each moment since the first number every untorn image has at least so many groups as the second says.
    ghost kept_since: { Self → ℕ → ℕ → First → List Group → ℕ → Type 0 };

    /// Nothing was written between one state and another: what the file holds is as it was, and a crash leaves no more.
    ghost untouched: { Self → Self → Type 0 };

    /// The law of the type: a test on the records of a whole set.
    ghost lawful: { List Pair → Bool };

    ghost fault_count: { Self → ℕ };

    ghost taken_count: { Self → ℕ };

    fn faults(&self) -> u64
        ensures { result ≡ fault_count self.now };

    fn taken(&self) -> u64
        ensures { result ≡ taken_count self.now };

    fn size(&self) -> u64
        ensures { result ≡ (store_view self.now).size };

    fn limit(&self) -> u64
        ensures value { result ≡ (constants self.now).limit }
        ensures most { result ≤ 2 ^ 40 };

    fn order(&self) -> Order
        ensures { result ≡ (constants self.now).order };

    fn next_number(&self) -> u64
        ensures { result ≡ (constants self.now).next };

    /// The number of records, unless the store must be given up.
    fn count(&self) -> u64
        ensures { IsWhole stands self.now → IfSome (store_view self.now).map
            (λ m. result ≡ length m) };

    /// Answers as the records do. An error may leave any bytes in the output.
    fn get(&mut self, key: &[u8], out: &mut Bytes) -> Result<bool, StoreError>
        requires whole { IsWhole stands self.old }
        ensures value { IfSome (store_view self.old).map
            (λ m. IfOk result (Gives (find key.now m) out.old out.new)) }
        ensures cost { IfSome ((store_view self.old).cost key.now) (λ most. taken_count self.new
            ≤ taken_count self.old + most) }
        ensures looks { OnlyLooks constants store_view stands kept_since untouched moment
            taken_count self.old self.new }
        ensures cause { HasCause (fault_count self.old) (fault_count self.new) result }
        ensures never { NeverFull result };

    /// Copies as many bytes as fit, and answers the value's length. An error may leave any bytes there.
    fn get_into(&mut self, key: &[u8], into: &mut [u8]) -> Result<Option<u32>, StoreError>
        requires whole { IsWhole stands self.old }
        ensures value { IfSome (store_view self.old).map
            (λ m. IfOk result (GivesInto (find key.now m) into.old into.new)) }
        ensures cost { IfSome ((store_view self.old).cost key.now) (λ most. taken_count self.new
            ≤ taken_count self.old + most) }
        ensures looks { OnlyLooks constants store_view stands kept_since untouched moment
            taken_count self.old self.new }
        ensures cause { HasCause (fault_count self.old) (fault_count self.new) result }
        ensures never { NeverFull result };

    /// The first record within the bound, going up.
    fn next(&mut self, bound: &Bound) -> Result<Option<Pair>, StoreError>
        requires whole { IsWhole stands self.old }
        ensures value { IfSome (store_view self.old).map
            (λ m. IfOk result (λ found. found ≡ first_within (constants self.old).order bound.now
            m)) }
        ensures looks { OnlyLooks constants store_view stands kept_since untouched moment
            taken_count self.old self.new }
        ensures cause { HasCause (fault_count self.old) (fault_count self.new) result }
        ensures never { NeverFull result };

    /// The first record within the bound, going down.
    fn prev(&mut self, bound: &Bound) -> Result<Option<Pair>, StoreError>
        requires whole { IsWhole stands self.old }
        ensures value { IfSome (store_view self.old).map
            (λ m. IfOk result (λ found. found ≡ last_within (constants self.old).order bound.now
            m)) }
        ensures looks { OnlyLooks constants store_view stands kept_since untouched moment
            taken_count self.old self.new }
        ensures cause { HasCause (fault_count self.old) (fault_count self.new) result }
        ensures never { NeverFull result };

    /// The bytes that the group needs.
    fn check_group(&mut self, changes: &ChangeList) -> Result<u64, StoreError>
        requires whole { IsWhole stands self.old }
        requires alone { IsClearAlone changes.now }
        requires fit { AllFitWithin (constants self.old).longest_value changes.now }
        ensures value { IfSome ((store_view self.old).needs changes.now)
            (λ need. IfOk result (λ n. n ≡ need)) }
        ensures looks { OnlyLooks constants store_view stands kept_since untouched moment
            taken_count self.old self.new }
        ensures cause { HasCause (fault_count self.old) (fault_count self.new) result }
        ensures never { NeverFull result };

    /// Prepares the group, and changes nothing of the records. After a fault the store must be given up.
    fn reserve_group(&mut self, changes: &ChangeList) -> Result<(), StoreError>
        requires whole { IsWhole stands self.old }
        requires open { (store_view self.old).closed ≡ false }
        requires alone { IsClearAlone changes.now }
        requires fit { AllFitWithin (constants self.old).longest_value changes.now }
        requires writable { (constants self.old).writable ≡ false → changes.now ≡ [] }
        ensures full { TellsFull (constants self.old) (store_view self.old) changes.now result }
        ensures reserved { OnOk result (reserved self.new changes.now) }
        ensures open { (store_view self.new).closed ≡ false }
        ensures contents { UnlessFault result (SameContents (store_view self.old)
            (store_view self.new)) }
        ensures refused { OnFull result (store_view self.new ≡ store_view self.old) }
        ensures extents { (v : ℕ) → (constants self.old).extents ≡ Some v
            → UnlessFault result (store_view self.new ≡ store_view self.old) }
        ensures stands { UnlessFault result (Keeps stands self.old self.new) }
        ensures since { UnlessFault result (KeepsSince kept_since self.old self.new) }
        ensures safe { LeavesSafe kept_since safe [] self.old self.new }
        ensures goes_on { GoesOn constants store_view moment taken_count self.old self.new }
        ensures reads { (constants self.old).writable ≡ false → untouched self.old self.new }
        ensures cause { HasCause (fault_count self.old) (fault_count self.new) result };

    /// Makes the prepared group. After a fault the store must be given up.
    fn apply_reserved(&mut self, number: u64) -> Result<(), StoreError>
        requires whole { IsWhole stands self.old }
        requires reserved { (changes : List Change) × reserved self.old changes }
        requires open { (store_view self.old).closed ≡ false }
        requires number { (constants self.old).writable ≡ true → (store_view self.old).floor
            ≤ number }
        ensures stands { (changes : List Change) → reserved self.old changes
            → (first : First) (since : List Group) (hard : ℕ) → stands self.old first since hard
            → OnOk result (stands self.new first (since ++ groups_made_by (constants self.old)
            number changes) hard) }
        ensures map { (changes : List Change) → reserved self.old changes
            → OnOk result ((store_view self.new).map ≡ option_map
            (after (constants self.old).order changes) (store_view self.old).map) }
        ensures floor { (changes : List Change) → reserved self.old changes
            → OnOk result ((store_view self.new).floor ≡ floor_after (store_view self.old).floor
            (groups_made_by (constants self.old) number changes)) }
        ensures size { (changes : List Change) (v need : ℕ) → reserved self.old changes
            → (constants self.old).extents ≡ Some v → (store_view self.old).needs changes
            ≡ Some need
            → OnOk result ((store_view self.new).size ≡ (store_view self.old).size + need) }
        ensures flushed { reserved self.old []
            → OnOk result ((store_view self.new).held_back ≡ false) }
        ensures since { (changes : List Change) → reserved self.old changes
            → (t n : ℕ) (first : First) (since : List Group) (hard : ℕ)
            → kept_since self.old t n first since hard
            → OnOk result (kept_since self.new t n first
            (since ++ groups_made_by (constants self.old) number changes) hard) }
        ensures safe { (changes : List Change) → reserved self.old changes
            → LeavesSafe kept_since safe (groups_made_by (constants self.old) number changes)
            self.old self.new }
        ensures open { (store_view self.new).closed ≡ false }
        ensures goes_on { GoesOn constants store_view moment taken_count self.old self.new }
        ensures reads { (constants self.old).writable ≡ false → reserved self.old []
            → untouched self.old self.new }
        ensures cause { HasCause (fault_count self.old) (fault_count self.new) result }
        ensures answers { OkOrFault result };

    /// After a hard sync all groups are kept by every crash. After a fault the store must be given up.
    fn sync(&mut self, hard: bool) -> Result<(), StoreError>
        requires whole { IsWhole stands self.old }
        requires open { (store_view self.old).closed ≡ false }
        requires flushed { hard ≡ true → (store_view self.old).held_back ≡ false }
        ensures stands { (first : First) (since : List Group) (synced : ℕ)
            → stands self.old first since synced
            → OnOk result (stands self.new first since (if hard then length since else synced)) }
        ensures store_view { OnOk result (store_view self.new ≡ store_view self.old) }
        ensures since { (t n : ℕ) (first : First) (since : List Group) (synced : ℕ)
            → kept_since self.old t n first since synced
            → OnOk result (kept_since self.new t n first since (if hard then length since
            else synced)) }
        ensures safe { LeavesSafe kept_since safe [] self.old self.new }
        ensures open { (store_view self.new).closed ≡ false }
        ensures goes_on { GoesOn constants store_view moment taken_count self.old self.new }
        ensures reads { (constants self.old).writable ≡ false → untouched self.old self.new }
        ensures cause { HasCause (fault_count self.old) (fault_count self.new) result }
        ensures answers { OkOrFault result };

    /// Ends the file. A store that makes marks makes one. After a fault the store must be given up.
    fn close(&mut self, next: u64) -> Result<(), StoreError>
        requires whole { IsWhole stands self.old }
        requires open { (store_view self.old).closed ≡ false }
        requires number { (constants self.old).writable ≡ true → (store_view self.old).floor
            ≤ next }
        requires below { (constants self.old).writable ≡ true → next < 2 ^ 64 - 1 }
        ensures stands { (first : First) (since : List Group) (hard : ℕ)
            → stands self.old first since hard
            → OnOk result (stands self.new first (since ++ groups_made_by (constants self.old) next
            []) (length (since ++ groups_made_by (constants self.old) next []))) }
        ensures map { UnlessFault result ((store_view self.new).map ≡ (store_view self.old).map) }
        ensures since { (t n : ℕ) (first : First) (since : List Group) (hard : ℕ)
            → kept_since self.old t n first since hard
            → OnOk result (kept_since self.new t n first
            (since ++ groups_made_by (constants self.old) next [])
            (length (since ++ groups_made_by (constants self.old) next []))) }
        ensures safe { LeavesSafe kept_since safe (groups_made_by (constants self.old) next [])
            self.old self.new }
        ensures closed { (store_view self.new).closed ≡ true }
        ensures ended { OnOk result ((store_view self.new).ended ≡ ended_by (constants self.old)
            next) }
        ensures unended { OnErr result ((store_view self.new).ended ≡ None) }
        ensures kept { OnNoMemory result (Keeps stands self.old self.new
            × KeepsSince kept_since self.old self.new) }
        ensures goes_on { GoesOn constants store_view moment taken_count self.old self.new }
        ensures reads { (constants self.old).writable ≡ false → untouched self.old self.new }
        ensures cause { HasCause (fault_count self.old) (fault_count self.new) result }
        ensures never { NeverFull result };

    /// The records are those of the opening after the groups.
    ghost replays: { (s : Self) (first : First) (since : List Group) (hard : ℕ)
        → stands s first since hard
        → IfSome (store_view s).map (λ m. m ≡ replay (constants s).order since first.records) };

    ghost rising: { (s : Self) (first : First) (since : List Group) (hard : ℕ)
        → stands s first since hard → Rising (constants s).order first.records };

    /// No key and no value is too long for a file.
    ghost held: { (s : Self) (first : First) (since : List Group) (hard : ℕ)
        → stands s first since hard → IfSome (store_view s).map AllHeld };

    /// The next group's number is above those of the groups.
    ghost numbered: { (s : Self) (first : First) (since : List Group) (hard : ℕ)
        → stands s first since hard → (store_view s).floor ≡ floor_after (constants s).next since };

    ghost synced: { (s : Self) (first : First) (since : List Group) (hard : ℕ)
        → stands s first since hard → hard ≤ length since };

    /// What a crash now may leave has all groups that were hard-synced.
    ghost stood_now: { (s : Self) (first : First) (since : List Group) (hard : ℕ)
        → stands s first since hard → kept_since s (moment s) hard first since hard };

    ghost stood_less: { (s : Self) (t m n : ℕ) (first : First) (since : List Group) (hard : ℕ)
        → m ≤ n → kept_since s t n first since hard → kept_since s t m first since hard };

    ghost stood_stands: { (s : Self) (t n : ℕ) (first : First) (since : List Group) (hard : ℕ)
        → kept_since s t n first since hard → stands s first since hard };

    ghost stood_safe: { (s : Self) (t n : ℕ) (first : First) (since : List Group) (hard : ℕ)
        → kept_since s t n first since hard → safe s t first since n };

    ghost safe_less: { (s : Self) (t : ℕ) (first : First) (since more : List Group) (m n : ℕ)
        → m ≤ n → safe s t first since n → safe s t first (since ++ more) m };

    /// A store that is open was not ended.
    ghost unended: { (s : Self) → (store_view s).closed ≡ false → (store_view s).ended ≡ None };

    /// A store takes each value that a call stores, and no value that is too long for a file.
    ghost values: { (s : Self) → (16777215 ≤ (constants s).longest_value)
        × ((constants s).longest_value ≤ 33554431) };

    /// Nothing was written from a state to itself.
    ghost untouched_same: { (s : Self) → untouched s s };

    /// Nothing was written in two steps where nothing was in either.
    ghost untouched_then: { (a b c : Self) → untouched a b → untouched b c → untouched a c };

    /// A store that tells its records tells what a list of changes needs.
    ghost tells_need: { (s : Self) (changes : List Change) → is_some (store_view s).map ≡ true
        → is_some ((store_view s).needs changes) ≡ true };

    /// A store that counts by extents needs so much, whatever it holds.
    ghost by_extents: { (s : Self) (v : ℕ) (changes : List Change) → (constants s).extents ≡ Some v
        → (store_view s).needs changes ≡ Some (extents_need (constants s) v changes) };
}
