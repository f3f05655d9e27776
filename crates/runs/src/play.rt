// A register is opened and a whole list of calls is played on it.
ghost use Rattle.std.specs.Prelude.{◌≡◌, ◌<◌, ◌≤◌, true, length, slice_set};
ghost use Rattle.protocol.specs.Settings.{setting_of};
ghost use Rattle.protocol.specs.Protocol.{opened};
ghost use Rattle.delivery.specs.Memory.{SameLoans, contents, enough};
ghost use Rattle.register.specs.Calling.{kinds, state_of};
ghost use Rattle.runs.specs.Playing.{Playing, Played};

use calls::{Answer, Call, Refusal};
use delivery::memory::Memory;
use quorums::QuorumSystem;
use register::record::Register;
use timestamps::Timestamp;
use values::Value;

// Writes the answer to a call.
// Kept: by its place, since over zip with iter_mut the invariant would have to follow each reference that was yielded.
fn put<S: Timestamp, V: Value>(answers: &mut [Answer<S, V>], place: usize, answer: Answer<S, V>)
    requires { place < length answers.old }
    ensures { answers.new ≡ slice_set answers.old place answer }
{
    answers[place] = answer;
}

// Plays calls on a register that was just opened.
fn play_all<Q: QuorumSystem, S: Timestamp, V: Value>(
    register: &mut Register<Q>,
    memory: &mut Memory<'_, S, V>,
    calls: &[Call<S, V>],
    answers: &mut [Answer<S, V>],
)
    requires room { length calls.now ≤ length answers.old }
    requires fits { enough (kinds Q.QuorumSystem S.Timestamp V.Value register.old) register.old.len (contents memory.old) ≡ true }
    requires fresh { state_of (kinds Q.QuorumSystem S.Timestamp V.Value register.old) register.old (contents memory.old) ≡ opened (kinds Q.QuorumSystem S.Timestamp V.Value register.old) }
    ensures loans { SameLoans memory.old memory.new }
    ensures played { Playing (kinds Q.QuorumSystem S.Timestamp V.Value register.old) calls.now register.old (contents memory.old) answers.old register.new (contents memory.new) answers.new }
{
    for (i, call) in calls.iter().enumerate() {
        let answer = register.answer(memory, *call);
        put(answers, i, answer);
    }
}

// Opens a register of m clients and plays the calls on it: answer i is that of call i. Whatever the calls are, later
// operations have no lower timestamps, writes are told apart and reads are genuine, and when all is quiet nothing is
// open.
pub fn play<Q: QuorumSystem, S: Timestamp, V: Value>(
    system: Q,
    m: usize,
    capacity: usize,
    memory: &mut Memory<'_, S, V>,
    calls: &[Call<S, V>],
    answers: &mut [Answer<S, V>],
) -> Result<Register<Q>, Refusal>
    ensures loans { SameLoans memory.old memory.new }
    ensures played { Played (setting_of Q.QuorumSystem S.Timestamp V.Value system m capacity 4294967295) system calls.now (contents memory.old) answers.old result (contents memory.new) answers.new }
{
    if answers.len() < calls.len() {
        return Err(Refusal::Memory);
    }
    let messages = &mut *memory.messages;
    let reports = &mut *memory.reports;
    let mut register = Register::open(
        system,
        m,
        capacity,
        memory.servers,
        memory.clients,
        memory.listeners,
        messages,
        reports,
    )?;
    play_all(&mut register, memory, calls, answers);
    Ok(register)
}
