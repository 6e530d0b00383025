//! The theorems, at the examples.

ghost use Rattle.std.specs.Prelude.{◌≡◌, ℕ, ◌∷◌, [], List, Option, Some, None, true, false};
ghost use Rattle.atomic_programs.specs.Calls.{Event, Start, Step, Started, Refused, DidWait, DidRun, DidEnd, State, next, run, outcomes, fresh, hart_of, IsHonest, AllHonest, Sound};
ghost use Rattle.atomic_programs.specs.Explained.{IsExplained, Leads, history};
ghost use Rattle.atomic_programs.specs.Plain.{IsCode};
ghost use Rattle.atomic_programs.specs.Logic.{Wp};
ghost use Rattle.atomic_programs.specs.Joined.{Both, joined};
ghost use Rattle.atomic_programs.specs.Operations.{operations, IsRun};
ghost use Rattle.atomic_programs.specs.Prog.{plain};
ghost use Rattle.atomic_programs.specs.Desk as desk;
ghost use Rattle.atomic_programs.specs.Whole as whole;
ghost use Rattle.atomic_programs.specs.Blocks as blocks;
ghost use Rattle.atomic_programs.specs.Wards as wards;
ghost use Rattle.atomic_programs.specs.Wards.{gifts_above, rest as purses};
ghost use Rattle.atomic_programs.specs.Within.{SwapIsWhole, swaps_noted, GiftIsWhole, gifts_noted};
ghost use Rattle.atomic_programs.specs.Noted.{Runs, Places, SameRuns};
ghost use Rattle.atomic_programs.specs.Grab as grab;
ghost use Rattle.atomic_programs.specs.Grab.{grabs_above, grabs_code};
ghost use Rattle.atomic_programs.specs.Swap.{Swap, Swapped, swaps, swaps_above, blocks_below, look, code, code_above, rest};

/// Over every list of events the replies at the desk are explained. There, another hart may place a hart's step, and a
/// start may reserve an idle hart.
pub fn desk_explained()
    ensures { (w : desk.World) (events : List (Event desk.Call (Unit {0}))) → ((h : ℕ) → desk.Idle h w)
        → IsExplained desk.desk w.book (run desk.desk events (fresh desk.desk w)) }
{}

/// At the desk an event may place another hart's step beside its own; what it places leads from book to book while nothing was wiped.
pub fn desk_leads()
    ensures { (s : State desk.desk) (e : Event desk.Call (Unit {0})) → Sound desk.desk s → IsHonest desk.desk e s
        → Leads desk.desk (hart_of e) s (next desk.desk e s) }
{}

/// Every hart is idle at a desk at rest.
pub fn desk_rests(number: u32)
    ensures { (tokens : ℕ → ℕ) (h : ℕ) → desk.Idle h (desk.rest number tokens) }
{}

/// A request waits until another hart serves it; its step is placed at that hart's event.
pub fn desk_helps()
    ensures outcomes { outcomes desk.desk
        (Start 0 (desk.Request 7) ∷ Step 0 tt ∷ Step 0 tt ∷ Start 1 (desk.Help 0) ∷ Step 1 tt ∷ Step 0 tt ∷ [])
        (fresh desk.desk (desk.rest 5 (λ h. 0)))
        ≡ Started ∷ DidRun (desk.Ask 7, tt) ∷ DidWait ∷ Started ∷ DidEnd (desk.Helped true) ∷ DidEnd (desk.Got 5) ∷ [] }
    ensures history { history desk.desk
        (run desk.desk (Start 0 (desk.Request 7) ∷ Step 0 tt ∷ Step 0 tt ∷ Start 1 (desk.Help 0) ∷ Step 1 tt ∷ [])
        (fresh desk.desk (desk.rest 5 (λ h. 0)))) ≡ record { number = 4; hart = 0; call = 0; step = desk.Swapped 7 5 } ∷ [] }
{}

/// A hart that is reserved for another's call starts nothing until that call's reply.
pub fn desk_reserves()
    ensures { outcomes desk.desk
        (Start 0 (desk.Give 1) ∷ Start 1 (desk.Help 0) ∷ Step 0 tt ∷ Start 1 (desk.Help 0) ∷ Step 0 tt ∷ Start 1 (desk.Help 0)
        ∷ Start 0 (desk.Give 1) ∷ []) (fresh desk.desk (desk.rest 5 (λ h. 0)))
        ≡ Started ∷ Refused desk.Reserved ∷ DidRun (desk.Hand 1, tt) ∷ Refused desk.Reserved ∷ DidEnd desk.Given ∷ Started
        ∷ Refused desk.Busy ∷ [] }
{}

/// After a wipe no reply is explained: the list has a step that the number didn't take.
pub fn desk_unclean()
    ensures clean { (run desk.desk (Start 0 desk.Reset ∷ Step 0 tt ∷ []) (fresh desk.desk (desk.rest 5 (λ h. 0)))).world.clean ≡ false }
    ensures history { history desk.desk
        (run desk.desk (Start 0 desk.Reset ∷ Step 0 tt ∷ Start 0 (desk.Request 7) ∷ Step 0 tt ∷ Start 1 (desk.Help 0) ∷ Step 1 tt ∷ [])
        (fresh desk.desk (desk.rest 5 (λ h. 0)))) ≡ record { number = 5; hart = 0; call = 2; step = desk.Swapped 7 0 } ∷ [] }
{}

/// Swaps of inodes' records, which were shown right over whole inodes, are explained when they run on blocks.
pub fn swaps_explained()
    ensures { (events : List (Event Swap blocks.Outside)) → AllHonest swaps events (fresh swaps rest)
        → IsExplained swaps rest.seen.dino (run swaps events (fresh swaps rest)) }
{}

/// And each such run shows a run of whole operations on whole inodes, of each call those of its program.
pub fn swaps_refined()
    ensures { (events : List (Event Swap blocks.Outside)) → AllHonest swaps_above events (fresh swaps_above rest)
        → IsExplained swaps_above rest.seen (run swaps_above events (fresh swaps_above rest)) }
{}

/// What each event on blocks places leads from the records before it to those after it.
pub fn swaps_lead()
    ensures { (s : State swaps) (e : Event Swap blocks.Outside) → Sound swaps s → IsHonest swaps e s
        → Leads swaps (hart_of e) s (next swaps e s) }
{}

/// Both are of the code on blocks, whose programs are the same: whichever history is kept beside, its outcomes are the code's.
pub fn swaps_are_code()
    ensures swaps { IsCode swaps code }
    ensures above { IsCode swaps_above code_above }
    ensures programs { (c : Swap) → plain (swaps.program c) ≡ plain (swaps_above.program c) }
{}

/// A swap on blocks: the record is loaded in the steps 3 to 5, and the store acts at the put of its block.
pub fn swaps_act()
    ensures { history swaps (run swaps
        (Start 0 (record { inode = 17; to = record { kind = 7; size = 7 } }) ∷ Step 0 blocks.Passes ∷ Step 0 blocks.Passes
        ∷ Step 0 blocks.Passes ∷ Step 0 blocks.Passes ∷ Step 0 blocks.Passes ∷ Step 0 blocks.Passes ∷ Step 0 blocks.Passes
        ∷ Step 0 blocks.Passes ∷ []) (fresh swaps rest))
        ≡ record { number = 7; hart = 0; call = 0; step = Swapped 17 (record { kind = 7; size = 7 }) (record { kind = 1; size = 1 }) }
        ∷ [] }
{}

/// A swap gives its inode back with the record that it stored, which is in memory from then on.
pub fn swaps_leave_in_memory()
    ensures { (run swaps (Start 0 (record { inode = 17; to = record { kind = 7; size = 7 } }) ∷ Step 0 blocks.Passes ∷ Step 0 blocks.Passes
        ∷ Step 0 blocks.Passes ∷ Step 0 blocks.Passes ∷ Step 0 blocks.Passes ∷ Step 0 blocks.Passes ∷ Step 0 blocks.Passes
        ∷ Step 0 blocks.Passes ∷ Step 0 blocks.Passes ∷ []) (fresh swaps rest)).world.real.mem 17 ≡ Some (record { kind = 7; size = 7 }) }
{}

/// There are eight harts: a start by another one is refused below, though above it would begin.
pub fn swaps_are_of_eight()
    ensures { outcomes swaps (Start 7 (record { inode = 17; to = record { kind = 7; size = 7 } })
        ∷ Start 8 (record { inode = 17; to = record { kind = 7; size = 7 } }) ∷ []) (fresh swaps rest) ≡ Started ∷ Refused tt ∷ [] }
{}

/// An inode that is taken and given back is unlocked with exactly the record that was loaded. What the program of the
/// one operation has loaded is handed on to that of the other.
pub fn looks_hand_on()
    ensures runs { (z : blocks.Block)
        → IsRun blocks_below (look 17)
        ((blocks.Lock 17, None) ∷ (blocks.Get 1, None) ∷ (blocks.Read 1, z) ∷ (blocks.Put 1 None, tt) ∷ (blocks.Unlock 17 (z 1), tt) ∷ [])
        (z 1) }
    ensures in_memory { (d : whole.Dinode) → IsRun blocks_below (look 17) ((blocks.Lock 17, Some d) ∷ (blocks.Unlock 17 d, tt) ∷ []) d }
    ensures alone { (z : blocks.Block) (d o : whole.Dinode)
        → IsRun blocks_below (look 17)
        ((blocks.Lock 17, None) ∷ (blocks.Get 1, None) ∷ (blocks.Read 1, z) ∷ (blocks.Put 1 None, tt) ∷ (blocks.Unlock 17 d, tt) ∷ []) o
        → (d ≡ z 1) × (o ≡ z 1) }
{}

/// The device fails in the load: above, the inode was taken before.
pub fn swaps_stop()
    ensures { history swaps_above
        (run swaps_above (Start 0 (record { inode = 17; to = record { kind = 7; size = 7 } }) ∷ Step 0 blocks.Passes ∷ Step 0 blocks.Passes
        ∷ Step 0 blocks.Passes ∷ Step 0 blocks.Fails ∷ []) (fresh swaps_above rest))
        ≡ record { number = 1; hart = 0; call = 0; step = (whole.Enter, tt) }
        ∷ record { number = 2; hart = 0; call = 0; step = (whole.Take 17, record { kind = 1; size = 1 }) } ∷ [] }
{}

/// A block is taken below by two puts, of the bitmap and of the block, and above in one step.
pub fn grabs_refined()
    ensures { (events : List (Event ℕ (Unit {0}))) → AllHonest grabs_above events (fresh grabs_above grab.rest)
        → IsExplained grabs_above grab.rest.seen (run grabs_above events (fresh grabs_above grab.rest)) }
{}

/// It acts at the bitmap's put, which is the call's third step.
pub fn grabs_act()
    ensures { history grabs_above
        (run grabs_above (Start 0 3 ∷ Step 0 tt ∷ Step 0 tt ∷ Step 0 tt ∷ Step 0 tt ∷ Step 0 tt ∷ []) (fresh grabs_above grab.rest))
        ≡ record { number = 1; hart = 0; call = 0; step = (grab.Hold 3, tt) }
        ∷ record { number = 3; hart = 0; call = 0; step = (grab.Grab 3, Some 0) }
        ∷ record { number = 5; hart = 0; call = 0; step = (grab.Drop 3, tt) } ∷ [] }
{}

/// Which inode has a block is kept below for the proof alone: the code has the locks, the bitmap and the blocks, and
/// runs the same.
pub fn grabs_are_code()
    ensures { IsCode grabs_above grabs_code }
{}

/// A start may reserve an idle hart for its call, in both worlds: each run below shows a run of whole operations above, which
/// lead from purses to purses.
pub fn gifts_refined()
    ensures { (purse : ℕ → ℕ) (events : List (Event ℕ (Unit {0}))) → AllHonest gifts_above events (fresh gifts_above (purses purse))
        → IsExplained gifts_above purse (run gifts_above events (fresh gifts_above (purses purse))) }
{}

/// A hart that is reserved starts nothing until the call that reserved it has ended; the gift acts at its first step below.
pub fn gifts_reserve()
    ensures outcomes { outcomes gifts_above (Start 0 1 ∷ Start 1 0 ∷ Start 2 1 ∷ Step 0 tt ∷ Step 0 tt ∷ Step 0 tt ∷ Start 1 0 ∷ [])
        (fresh gifts_above (purses (λ h. h)))
        ≡ Started ∷ Refused wards.Reserved ∷ Refused wards.Reserved ∷ DidRun (wards.Peek, 0) ∷ DidRun (wards.Fill 1 0, tt) ∷ DidEnd tt
        ∷ Started ∷ [] }
    ensures history { history gifts_above
        (run gifts_above (Start 0 1 ∷ Start 1 0 ∷ Start 2 1 ∷ Step 0 tt ∷ Step 0 tt ∷ Step 0 tt ∷ []) (fresh gifts_above (purses (λ h. h))))
        ≡ record { number = 3; hart = 0; call = 0; step = (wards.Give 1, tt) }
        ∷ record { number = 5; hart = 0; call = 0; step = (wards.Free 1, tt) } ∷ [] }
{}

/// The program of a gift below places the gift, and nothing else, between its first step and its last, whatever the others do.
pub fn gifts_act_once()
    ensures { (h j : ℕ) (m : Unit {0} → Option (Unit {0})) (w : Both wards.World wards.World) → w.seen.ward j ≡ Some h
        → w.seen.ward h ≡ None → wards.Base h w.real w.seen
        → Wp (joined (operations wards.machine wards.core) wards.low) h (λ fs. fs ≡ (wards.Give j, tt) ∷ [])
        (λ a fs u. (fs ≡ (wards.Give j, tt) ∷ []) × wards.Base h u.real u.seen) (wards.handler tt (wards.Give j) m) 2 [] w }
{}

/// In each run of swaps on blocks every operation above acts within the run of its own program below, once. It is
/// placed at an event of its hart that isn't before that program's first step, nor after its last.
pub fn swaps_act_within()
    ensures same { SameRuns swaps_above SwapIsWhole rest }
    ensures explained { (events : List (Event Swap blocks.Outside)) → AllHonest swaps_above events (fresh swaps_above rest)
        → IsExplained swaps_noted rest.seen (run swaps_noted events (fresh swaps_noted rest)) }
{}

/// The same of gifts, whose starts reserve a hart; and what is noted of one.
pub fn gifts_act_within()
    ensures same { (purse : ℕ → ℕ) → SameRuns gifts_above GiftIsWhole (purses purse) }
    ensures explained { (purse : ℕ → ℕ) (events : List (Event ℕ (Unit {0})))
        → AllHonest gifts_above events (fresh gifts_above (purses purse))
        → IsExplained gifts_noted purse (run gifts_noted events (fresh gifts_noted (purses purse))) }
    ensures history { history gifts_noted
        (run gifts_noted (Start 0 1 ∷ Step 0 tt ∷ Step 0 tt ∷ Step 0 tt ∷ []) (fresh gifts_noted (purses (λ h. h))))
        ≡ record { number = 1; hart = 0; call = 0; step = Runs (wards.Peek, 0) }
        ∷ record { number = 1; hart = 0; call = 0; step = Places (wards.Give 1, tt) }
        ∷ record { number = 2; hart = 0; call = 0; step = Runs (wards.Fill 1 0, tt) }
        ∷ record { number = 3; hart = 0; call = 0; step = Runs (wards.Release 1, tt) }
        ∷ record { number = 3; hart = 0; call = 0; step = Places (wards.Free 1, tt) } ∷ [] }
{}
