//! What a host plans before it closes its round.

ghost use Rattle.std.specs.Prelude.{◌≡◌, ◌≢◌, ◌+◌, ◌≤◌, ◌<◌, true, false, Some, IfSome, length, position, get_or, slice_set};
ghost use Rattle.std.specs.List.{list_all, position_or_len};
ghost use Rattle.std.specs.Option.{option_map};
ghost use Rattle.lwb_base.specs.Messages.{Ask, code_of, node_of, stream_of};
ghost use Rattle.lwb_base.specs.declared.limits.TheConstants.{LAST_FRAME};
ghost use Rattle.lwb_packets.specs.declared.kind.Kind.TheVariants.{Schedule as OfSchedule};
ghost use Rattle.schedule_codec.specs.AckLists.{are_acks, ask_in_range};
ghost use Rattle.bus_rules.specs.Plans.{last_slot as last_slot_of};
ghost use Rattle.bus_rules.specs.Tuning.{hosts};
ghost use Rattle.bus_rules.specs.Tables.{after_request};
ghost use Rattle.bus_rules.specs.HostPlans.{with_ack, answer, answers_to, serve, served};
ghost use Rattle.bus_rules.specs.Slots.{host_closes};
ghost use Rattle.lwb_member.specs.Members.{IsBoot};
ghost use Rattle.lwb_member.specs.Said.{bytes_in_slot, message_of, IsInitialPacket};
ghost use Rattle.lwb_member.specs.Planning.{AreAnswers, AreKeptRequests, IsEarly};

use crate::kept::Kept;
use crate::member::Member;
use crate::round_end::last_slot;
use arrayvec::ArrayVec;
use host_scheduler::plan_round;
use lwb_base::{NodeId, Owner, Packet};
use lwb_packets::Request;
use node_streams::Streams;
use schedule_codec::{Ack, Acks, Schedule, write};
use stream_table::{Answer, Table, code_order};

// The requests that were kept are put to the table, in their order. What is acknowledged of them.
pub(crate) fn answer_kept(table: &mut Table, kept: &[Kept], frame: u32) -> Acks
    requires kept { AreKeptRequests kept.now }
    requires early { IsEarly frame table.old }
    ensures table { table.new ≡ (answers_to frame kept.now table.old).table }
    ensures acks { result ≡ (answers_to frame kept.now table.old).acks }
    ensures few { length result ≤ length kept.now }
    ensures ranges { list_all ask_in_range result ≡ true }
    ensures early { IsEarly frame table.new }
{
    let answers = answer_each(table, kept, frame);
    as_acks(answers.as_slice())
}

fn answer_each(table: &mut Table, kept: &[Kept], frame: u32) -> ArrayVec<Kept, 4>
    requires kept { AreKeptRequests kept.now }
    requires early { IsEarly frame table.old }
    ensures table { table.new ≡ (answers_to frame kept.now table.old).table }
    ensures acks { result.items ≡ (answers_to frame kept.now table.old).acks }
    ensures few { length result.items ≤ length kept.now }
    ensures are { AreAnswers result.items }
    ensures early { IsEarly frame table.new }
{
    let mut answers = ArrayVec::new();
    for asked in kept {
        answer_one(table, &mut answers, asked.ask, frame);
    }
    answers
}

// One request is put to the table, and acknowledged unless it finds no room.
#[tactic(auto, using(crate::proofs::Answering::request_early))]
fn answer_one(table: &mut Table, answers: &mut ArrayVec<Kept, 4>, ask: Ack, frame: u32)
    requires ask { ask_in_range ask ≡ true }
    requires early { IsEarly frame table.old }
    requires few { length answers.old.items < 4 }
    requires are { AreAnswers answers.old.items }
    ensures table { table.new ≡ after_request frame table.old ask }
    ensures acks { answers.new.items ≡ (answer frame (record { table = table.old; acks = answers.old.items }) ask).acks }
    ensures few { length answers.new.items ≤ length answers.old.items + 1 }
    ensures are { AreAnswers answers.new.items }
    ensures early { IsEarly frame table.new }
{
    let request = Request {
        slot: 1,
        counter: 0,
        node: ask.node,
        boot: ask.boot,
        stream: ask.stream,
        interval: ask.interval,
    };
    match table.request(&request, frame) {
        Answer::Full => {}
        Answer::Accepted | Answer::Replaced | Answer::Removed => put_answer(answers, ask),
    }
}

// By ascending code, and instead of one of the same code.
fn put_answer(answers: &mut ArrayVec<Kept, 4>, ask: Ack)
    requires few { length answers.old.items < 4 }
    requires ask { ask_in_range ask ≡ true }
    requires are { AreAnswers answers.old.items }
    ensures after { answers.new.items ≡ with_ack ask answers.old.items }
    ensures few { length answers.new.items ≤ length answers.old.items + 1 }
    ensures are { AreAnswers answers.new.items }
{
    code_order::put(answers, Kept { ask });
}

fn as_acks(answers: &[Kept]) -> Acks
    requires { are_acks answers.now ≡ true }
    ensures { result ≡ answers.now }
{
    let mut acks = Acks::new();
    for answer in answers {
        acks.add(answer.ask);
    }
    acks
}

// The host's own streams, ascending: each takes over the interval that the table has granted it, and if a request is due then,
// the request is put to the table.
pub(crate) fn serve_own(
    table: &mut Table,
    streams: &mut Streams,
    node: NodeId,
    boot: u8,
    frame: u32,
)
    requires boot { IsBoot boot }
    requires early { IsEarly frame table.old }
    ensures table { table.new ≡ (served frame node boot table.old streams.old).table }
    ensures streams { streams.new ≡ (served frame node boot table.old streams.old).streams }
    ensures early { IsEarly frame table.new }
{
    for stream in 0..4_u8 {
        serve_one(table, streams, Owner::new(node, stream), boot, frame);
    }
}

// One stream of the host.
#[tactic(auto, using(crate::proofs::Answering::request_early))]
fn serve_one(table: &mut Table, streams: &mut Streams, owner: Owner, boot: u8, frame: u32)
    requires boot { IsBoot boot }
    requires early { IsEarly frame table.old }
    ensures table { table.new ≡ (serve frame (node_of owner) boot (record { table = table.old; streams = streams.old }) (stream_of owner)).table }
    ensures streams { streams.new ≡ (serve frame (node_of owner) boot (record { table = table.old; streams = streams.old }) (stream_of owner)).streams }
    ensures early { IsEarly frame table.new }
{
    let stream = owner.stream();
    streams.set_agreed(stream, table.interval(owner));
    if let Some(interval) = streams.due_of(stream) {
        let ask = Request {
            slot: 1,
            counter: 0,
            node: owner.node(),
            boot,
            stream,
            interval,
        };
        table.request(&ask, frame);
    }
}

impl Member {
    // The last slot of its round: a host plans its next round, and closes this one by the new plan.
    pub(crate) fn plan_next(&mut self, frame: u32) -> Packet
        requires host { hosts self.old.core.tune ≡ true }
        requires frame { frame ≤ LAST_FRAME }
        requires early { IsEarly frame self.old.core.table }
        ensures packet { Some result ≡ option_map (bytes_in_slot (last_slot_of self.old.core.plan)) (host_closes self.old.setup frame self.old.core).message }
        ensures told { message_of result ≡ (host_closes self.old.setup frame self.old.core).message }
        ensures said { IsInitialPacket OfSchedule result }
        ensures core { self.new ≡ record self.old { core = (host_closes self.old.setup frame self.old.core).core } }
        ensures early { IsEarly frame self.new.core.table }
    {
        let slot = last_slot(&self.plan);
        let rank = self.rank();
        let acks = answer_kept(&mut self.table, self.kept.as_slice(), frame);
        self.kept = ArrayVec::new();
        serve_own(
            &mut self.table,
            &mut self.streams,
            self.id,
            self.boot,
            frame,
        );
        let plan = plan_round(&mut self.table, &self.profile, frame);
        self.tuner.planned(frame + u32::from(plan.gap));
        self.plan = Schedule {
            host: rank,
            host_boot: self.boot,
            gap: plan.gap,
            contend: self.profile.contend(),
            acks,
            owners: plan.owners,
        };
        write(&self.plan, slot)
    }
}
