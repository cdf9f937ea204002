//! Schedules with known verdicts, and the checks over many schedules.

mod three_word;

ghost use Rattle.std.specs.Prelude.{◌<◌, ◌↔◌, length, IsTrue, All};

use crate::steps::{next_random, same};
use bus_adoptcommit::checkers::{is_legal, is_weakly_legal};
use bus_adoptcommit::objects::verdicts;
use bus_adoptcommit::{Ratifier, TwoCollect, Verdict};
use bus_register::{Kind, Op, Reg, SenderNo};
use std::process::Abort;

/// Every entry is the number of a process.
fn is_schedule(processes: usize, schedule: &[u8]) -> bool
    ensures { IsTrue result ↔ All (λ p. p < processes) schedule.now }
{
    schedule.iter().all(|p| usize::from(*p) < processes)
}

/// The verdicts after a schedule.
fn play<Q: Ratifier + Drop>(
    rt: &(impl Abort + AllocGlobal),
    inputs: &[bool],
    schedule: &[u8],
) -> Vec<Option<Verdict>> {
    assert!(rt; inputs.len() <= 64);
    assert!(rt; is_schedule(inputs.len(), schedule));
    verdicts::<Q>(rt.alloc(), inputs, schedule).expect(rt, "memory")
}

/// The inputs of the processes that have an entry.
fn begun<R: Abort + AllocGlobal>(rt: &R, inputs: &[bool], schedule: &[u8]) -> Vec<Option<bool>> {
    let mut begun = Vec::new(rt.alloc());
    for (p, input) in inputs.iter().enumerate() {
        let has_entry = schedule.iter().any(|q| usize::from(*q) == p);
        let counted = if has_entry { Some(*input) } else { None };
        begun.push(counted).expect(rt, "memory");
    }
    begun
}

/// The verdicts after a schedule pass the check.
fn passes<Q: Ratifier + Drop>(
    rt: &(impl Abort + AllocGlobal),
    inputs: &[bool],
    schedule: &[u8],
) -> bool {
    let outputs = play::<Q>(rt, inputs, schedule);
    let begun = begun(rt, inputs, schedule);
    is_legal(&begun, &outputs)
}

const COMMIT_0: Option<Verdict> = Some(Verdict::Commit(false));

const COMMIT_1: Option<Verdict> = Some(Verdict::Commit(true));

const ADOPT_0: Option<Verdict> = Some(Verdict::Adopt(false));

const ADOPT_1: Option<Verdict> = Some(Verdict::Adopt(true));

/// After a schedule of two processes with these inputs the verdicts are these.
fn ends<Q: Ratifier + Drop>(
    rt: &(impl Abort + AllocGlobal),
    inputs: [bool; 2],
    schedule: &[u8],
    wanted: [Option<Verdict>; 2],
) {
    let outputs = play::<Q>(rt, &inputs, schedule);
    assert!(rt; outputs.as_slice() == wanted.as_slice());
}

#[test]
fn known_verdicts(rt: HostRuntime) {
    let split = [false, true];
    let in_turn = [0, 1, 0, 1, 0, 1, 0, 1, 0, 1, 0, 1];
    ends::<TwoCollect>(&rt, [true, true], &in_turn, [COMMIT_1, COMMIT_1]);
    let solo_then_late = [0, 0, 0, 0, 0, 0, 1, 1, 1, 1, 1, 1];
    ends::<TwoCollect>(&rt, split, &solo_then_late, [COMMIT_0, ADOPT_0]);
    let both_propose_first = [0, 1, 0, 0, 0, 0, 0, 1, 1, 1, 1, 1];
    ends::<TwoCollect>(&rt, split, &both_propose_first, [ADOPT_0, ADOPT_1]);
    let stopped_before_output = [0, 0, 0, 0, 1, 1, 1, 1, 1, 1];
    ends::<TwoCollect>(&rt, split, &stopped_before_output, [None, ADOPT_0]);
}

/// The next step of a process is of this kind, is this, and finds this.
fn takes<Q: Ratifier>(rt: &impl Abort, process: &mut Q, kind: Kind, op: Op, got: u64) {
    same(rt, &process.output(), &None);
    same(rt, &process.kind(), &Some(kind));
    same(rt, &process.next(0), &Some(op));
    if process.next(0).is_some() {
        process.feed(got, 0);
    }
}

/// A process takes no further step, and has this output.
fn has_ended<Q: Ratifier>(rt: &impl Abort, process: &Q, output: Option<Verdict>) {
    same(rt, &process.kind(), &None);
    same(rt, &process.next(0), &None);
    same(rt, &process.output(), &output);
}

/// The second of three processes, over words from 10 on: each step, and what it finds.
#[test]
fn steps_of_one_process(rt: HostRuntime) {
    same(&rt, &TwoCollect::width(3), &6);
    same(&rt, &TwoCollect::steps(3), &8);
    let mut process = TwoCollect::start(3, SenderNo(1), true, Reg(10));
    let steps = [
        (Kind::WriteFirst, Op::Store(Reg(11), 2), 0),
        (Kind::ReadFirst, Op::Load(Reg(10)), 0),
        (Kind::ReadFirst, Op::Load(Reg(11)), 2),
        (Kind::ReadFirst, Op::Load(Reg(12)), 1),
        (Kind::WriteSecond, Op::Store(Reg(14), 2), 0),
        (Kind::ReadSecond, Op::Load(Reg(13)), 0),
        (Kind::ReadSecond, Op::Load(Reg(14)), 2),
        (Kind::ReadSecond, Op::Load(Reg(15)), 3),
    ];
    for (kind, op, got) in steps {
        takes(&rt, &mut process, kind, op, got);
    }
    has_ended(&rt, &process, ADOPT_0);
}

/// A second process that keeps its own input beside the first one's commit: valid and convergent,
/// and not coherent.
#[test]
fn own_value_beside_a_commit(rt: HostRuntime) {
    let inputs = [Some(false), Some(true)];
    let outputs = [COMMIT_0, ADOPT_1];
    assert!(rt; is_weakly_legal(&inputs, &outputs));
    assert!(rt; !is_legal(&inputs, &outputs));
}

/// Entry k of a schedule of two processes is bit k.
fn of_bits<R: Abort + AllocGlobal>(rt: &R, bits: u16, entries: u32) -> Vec<u8> {
    let mut schedule = Vec::new(rt.alloc());
    for k in 0..entries {
        schedule
            .push(((bits >> k % 16) & 1) as u8)
            .expect(rt, "memory");
    }
    schedule
}

/// Checks a schedule of two processes with each pair of inputs, cut at each place.
fn passes_cut<Q: Ratifier + Drop>(rt: &(impl Abort + AllocGlobal), schedule: &[u8]) {
    for inputs in [[false, false], [false, true], [true, false], [true, true]] {
        for cut in 0..=schedule.len() {
            assert!(rt; passes::<Q>(rt, &inputs, &schedule[..cut]));
        }
    }
}

/// Checks all orders of so many entries of each of two processes. Gives how many orders there are.
fn orders_of_two<Q: Ratifier + Drop>(rt: &(impl Abort + AllocGlobal), each: u32) -> u32 {
    assert!(rt; each <= 6);
    let mut orders = 0u32;
    for bits in 0..1u16 << (2 * each) {
        if bits.count_ones() == each {
            orders = orders.wrapping_add(1);
            passes_cut::<Q>(rt, &of_bits(rt, bits, 2 * each));
        }
    }
    orders
}

/// All 924 orders of six steps each, with each pair of inputs, cut at each place.
#[test]
fn all_orders_of_two_processes(rt: HostRuntime) {
    same(&rt, &orders_of_two::<TwoCollect>(&rt, 6), &924);
}

/// So many inputs at random.
fn random_inputs<R: Abort + AllocGlobal>(rt: &R, state: &mut u64, processes: u64) -> Vec<bool> {
    let mut inputs = Vec::new(rt.alloc());
    for _ in 0..processes {
        *state = next_random(*state);
        inputs.push(*state >> 63 == 1).expect(rt, "memory");
    }
    inputs
}

/// So many entries at random, where a process mostly goes on for a while.
fn random_schedule<R: Abort + AllocGlobal>(
    rt: &R,
    state: &mut u64,
    processes: u64,
    entries: u64,
) -> Vec<u8> {
    assert!(rt; 0 < processes && processes <= 8);
    let mut schedule = Vec::new(rt.alloc());
    let mut process = 0u8;
    for _ in 0..entries {
        *state = next_random(*state);
        if *state >> 62 == 0 {
            process = ((*state >> 33) % processes) as u8;
        }
        schedule.push(process).expect(rt, "memory");
    }
    schedule
}

/// Checks so many schedules of three to eight processes at random, each of fewer entries than
/// `most`.
fn random_orders<Q: Ratifier + Drop>(rt: &(impl Abort + AllocGlobal), schedules: u32, most: u64) {
    let mut state = 2026u64;
    for _ in 0..schedules {
        state = next_random(state);
        let processes = 3 + (state >> 33) % 6;
        let inputs = random_inputs(rt, &mut state, processes);
        state = next_random(state);
        let entries = (state >> 33) % most.max(1);
        let schedule = random_schedule(rt, &mut state, processes, entries);
        assert!(rt; passes::<Q>(rt, &inputs, &schedule));
    }
}

/// Many of these schedules are cut short.
#[test]
fn random_orders_of_more_processes(rt: HostRuntime) {
    random_orders::<TwoCollect>(&rt, 1000, 300);
}
