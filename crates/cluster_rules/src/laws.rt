//! Laws of the definitions, each the contract of a function with an empty body. They hold whatever is lost, repeated,
//! reordered, restarted or cut short for lack of memory, and whichever store calls fail.

ghost use Rattle.std.specs.Prelude.{Bool, List, None, length, take, min, false, true, ℕ, ◌+◌, ◌-◌, ◌^◌, ◌≡◌, ◌≢◌, ◌<◌, ◌≤◌, ◌⊎◌, ◌++◌, ◌∷◌, Some};
ghost use Rattle.std.specs.List.{AllByRecursion as Each};
ghost use Rattle.cat_model.specs.declared.command.Command.{Command};
ghost use Rattle.cat_model.specs.declared.query.Query.{Query};
ghost use Rattle.cat_model.specs.declared.request.Mode.{Mode};
ghost use Rattle.cat_model.specs.declared.request.Mode.TheVariants.{Default, Consistent};
ghost use Rattle.cat_model.specs.declared.request.Request.{Request};
ghost use Rattle.cat_model.specs.declared.request.Request.TheVariants.{Read, Write};
ghost use Rattle.cat_model.specs.declared.request.Asked.TheVariants.{Bad, Good};
ghost use Rattle.cat_model.specs.declared.request.Event.{Event};
ghost use Rattle.cat_model.specs.declared.reply.Kind.{Kind};
ghost use Rattle.cat_model.specs.declared.reply.Kind.TheVariants.{Acked, At, Seen, Refused};
ghost use Rattle.cat_model.specs.declared.reply.Mark.TheVariants.{Answered};
ghost use Rattle.cat_model.specs.declared.reply.Refusal.TheVariants.{Invalid, LogFull, Lost, TooMany};
ghost use Rattle.cat_model.specs.declared.reply.Role.TheVariants.{Follower};
ghost use Rattle.cat_model.specs.declared.reply.Refusal.{Refusal};
ghost use Rattle.raft_model.specs.Log.{Log};
ghost use Rattle.raft_model.specs.Node.{Store};
ghost use Rattle.raft_model.specs.Runs.{fresh};
ghost use Rattle.raft_model.specs.World.{World, IsReached, Reaches};
ghost use Rattle.cluster_rules.specs.Replies.{Blank, Out, Question, Replied, Reply, came, entered, reply_of, shown};
ghost use Rattle.cluster_rules.specs.Past.{AddsEvent, AddsQuiet, Among, AreKept, AsksNothing, HasNoOut, IsNotHeld, asked_of, taken_of};
ghost use Rattle.cluster_rules.specs.Lasting.{IsWrite, IsEntered, Lasting};
ghost use Rattle.cluster_rules.specs.Cluster.{Cluster, Pending, Server, applied_of, node_of, server_of, started};
ghost use Rattle.cluster_rules.specs.Booked.{Booked};
ghost use Rattle.cluster_rules.specs.Timely.{AreTimely};
ghost use Rattle.cluster_rules.specs.SessionRuns.{LockRun, ReapRun, TtlRun};
ghost use Rattle.cluster_rules.specs.Due.{IsDue, Work, did, due};
ghost use Rattle.cluster_rules.specs.Left.{left};
ghost use Rattle.cluster_rules.specs.Guards.{StepIsGuarded};
ghost use Rattle.cluster_rules.specs.Legal.{StepIsLegal, StillWaits};
ghost use Rattle.cluster_rules.specs.Step.{ClusterStep};
ghost use Rattle.cluster_rules.specs.Reached.{EndInPairs, IsBegun, IsStart, Making, MayBegin, Move, Reached, Settling, moves_of, then_made};
ghost use Rattle.cluster_rules.specs.Runs.{ConsistentRun, FullWaitRun};
ghost use Rattle.cluster_rules.specs.Sound.{OutIsSound, answers_in, Ascends, IsAmong, LookedBefore, NeverEnters, Sound, entered_in, entries_before, found, halts_in};
ghost use Rattle.cat_model.specs.declared.row.SessionRow.{SessionRow};
ghost use Rattle.cluster_rules.specs.Leases.{DelayLaw, IsTimely, TtlLaw};
ghost use Rattle.cluster_rules.specs.Offices.{Office};
ghost use Rattle.cat_model.specs.declared.request.AgentOp.{AgentOp};
ghost use Rattle.cat_model.specs.declared.row.ServiceRow.{ServiceRow};
ghost use Rattle.cluster_rules.specs.Agents.{Agent, change, new_agent, ticked};
ghost use Rattle.cluster_rules.specs.Own.{KeepsOwn};

/// Each step, whole or cut short, keeps a cluster sound.
#[tactic(auto, using(crate::proofs::Keeping::step_keeps))]
pub fn steps_keep_sound()
    ensures { (c c' : Cluster) (made : Event) (whole : Bool) → ClusterStep c made c' whole → Sound c → Sound c' }
{}

/// Servers with empty stores are a start.
pub fn fresh_servers_start()
    ensures { (servers agents : ℕ) → 0 < servers → servers ≤ 7 → agents ≤ 64 → IsStart (started (fresh servers) agents) }
{}

/// Each cluster of a run is sound.
#[tactic(auto, using(crate::proofs::Reached::run_sound))]
pub fn runs_are_sound()
    ensures { (start : Cluster) → IsStart start → (whole : Bool) (moves : List Move) (c : Cluster) → Reached start whole moves c → Sound c }
{}

/// Servers with stores such as an earlier run of as many left are a start.
#[tactic(auto, using(crate::proofs::Starting::kept_start))]
pub fn kept_stores_start()
    ensures { (stores : List Store) (c : Cluster) → IsBegun stores c → MayBegin stores → IsStart c }
{}

/// A beginning has a server for each store.
#[tactic(auto, using(crate::proofs::Starting::begun_servers))]
pub fn beginnings_have_their_servers()
    ensures { (stores : List Store) (c : Cluster) → IsBegun stores c → length c.servers ≡ length stores }
{}

/// The books of each cluster of a run hold, whatever its stores held at the beginning.
pub fn runs_are_booked()
    ensures { (stores : List Store) (start c : Cluster) (whole : Bool) (moves : List Move) → IsBegun stores start → Reached start whole moves c → Booked c }
{}

/// A sound cluster's books hold.
#[tactic(auto, using(crate::proofs::Booked::sound_books))]
pub fn sound_clusters_are_booked()
    ensures { (c : Cluster) → Sound c → Booked c }
{}

/// What an answer rests on is so of each later agreed log.
#[tactic(auto, using(crate::proofs::Answers::answers_last))]
pub fn answers_last()
    ensures { (c : Cluster) → Sound c → (w : World) → Reaches c.world w → (number : ℕ) (kind : Kind) (known : Bool) (contact : ℕ) → IsAmong (Answered number kind known contact) c.past →
        (q : Question) × IsAmong (came q) c.past × (q.number ≡ number) × Lasting q kind w.agreed }
{}

/// An acknowledged write stands at its position in each later agreed log.
#[tactic(auto, using(crate::proofs::Answers::writes_stand))]
pub fn acknowledged_writes_stand()
    ensures { (c : Cluster) → Sound c → (w : World) → Reaches c.world w → (number position : ℕ) (known : Bool) (contact : ℕ) → IsAmong (Answered number (Acked position) known contact) c.past →
        (q : Question) × IsAmong (came q) c.past × (q.number ≡ number) × IsWrite q.asked (λ command. IsEntered position number (entered q command) w.agreed) }
{}

/// The entry of a write that was answered that its leadership was lost, told by its term and number, stands in no
/// agreed log, then or later.
#[tactic(auto, using(crate::proofs::Answers::lost_never))]
pub fn lost_writes_never_enter()
    ensures { (c : Cluster) → Sound c → (number old found : ℕ) (known : Bool) (contact : ℕ) → IsAmong (Answered number (Refused (Lost old found)) known contact) c.past →
        (q : Question) × IsAmong (came q) c.past × (q.number ≡ number) × ((command : Command) → q.asked ≡ Good (Write command) → NeverEnters c.world old number) }
{}

/// A consistent read's prefix is no shorter than what was agreed before its asking.
#[tactic(auto, using(crate::proofs::Answers::consistent_fresh))]
pub fn consistent_reads_are_fresh()
    ensures { (c : Cluster) → Sound c → (number prefix index clock deadline : ℕ) (known : Bool) (contact : ℕ) → IsAmong (Answered number (At Consistent prefix index clock deadline) known contact) c.past → entries_before number c.past ≤ prefix }
{}

/// Nor is that of a consistent execution.
#[tactic(auto, using(crate::proofs::Answers::run_fresh))]
pub fn consistent_executions_are_fresh()
    ensures { (c : Cluster) → Sound c → (number prefix : ℕ) (known : Bool) (contact : ℕ) → IsAmong (Answered number (Seen Consistent prefix) known contact) c.past → entries_before number c.past ≤ prefix }
{}

/// A default read's prefix is no shorter than what its server had applied at its asking.
#[tactic(auto, using(crate::proofs::Answers::default_fresh))]
pub fn default_reads_look_no_earlier()
    ensures { (c : Cluster) → Sound c → (number prefix index clock deadline : ℕ) (known : Bool) (contact : ℕ) → IsAmong (Answered number (At Default prefix index clock deadline) known contact) c.past → LookedBefore number c.starts prefix }
{}

/// Each reply and each closing of a step is legal in the cluster in which it is made.
pub fn replies_are_legal()
    ensures { (c c' : Cluster) (made : Event) (whole : Bool) (step : ClusterStep c made c' whole) → Sound c → StepIsLegal c made c' whole step }
{}

/// A write that locks a key is proposed only by a server by whose clock the key's lock delay is over, and with the number
/// of its request, which is not 0. The end of a session is proposed for no request only in the second act of a tick, and
/// only of a session with a TTL, twice of which is over since the latest of the server's taking office, its applying of
/// the creation, and its renewal. No sync and no reap proposes one, and nothing else proposes.
#[tactic(auto, using(crate::proofs::Guarding::step_guarded))]
pub fn proposals_are_guarded()
    ensures { (c c' : Cluster) (made : Event) (whole : Bool) (step : ClusterStep c made c' whole) → Sound c → StepIsGuarded c made c' whole step }
{}

/// Each of the requests that were asked is in exactly one place: held, in an out that nobody has taken, or taken. No
/// other number is anywhere.
pub fn none_is_lost()
    ensures once { (c : Cluster) → Booked c → (k : ℕ) → 0 < k → k ≤ c.asked → found k c ≡ 1 }
    ensures none { (c : Cluster) → Booked c → (k : ℕ) → c.asked < k → found k c ≡ 0 }
{}

/// A reply that nobody has taken is that of its mark, and shows what the agreed log holds. A request is closed only
/// where a server restarted, in the event of that number.
pub fn outs_are_sound()
    ensures { (c : Cluster) → Sound c → (o : Out) → IsAmong o c.tray → OutIsSound c.world c.past o }
{}

/// A request is answered at most once, and not while it is held.
pub fn requests_are_answered_once()
    ensures once { (c : Cluster) → Booked c → (k : ℕ) → answers_in k c.past ≤ 1 }
    ensures held { (c : Cluster) → Booked c → Each (λ (h : Pending). answers_in h.question.number c.past ≡ 0) c.held }
{}

/// A request that is one is never refused as if it were none, and one that is none gets just the refusal that it came
/// with. Leadership is lost by writes and consistent reads alone, only reads find too many waiting, and only writes find
/// the log full.
pub fn refusals_fit_their_requests()
    ensures good { (q : Question) (request : Request) (field : List ℕ) (log : Log) → q.asked ≡ Good request → Lasting q (Refused (Invalid field)) log → ⊥ }
    ensures bad { (q : Question) (why other : Refusal) (log : Log) → q.asked ≡ Bad why → Lasting q (Refused other) log → other ≡ why }
    ensures lost { (q : Question) (query : Query) (mode : Mode) (least wait : ℕ) (raw : Bool) (old found : ℕ) (log : Log) → mode ≢ Consistent → q.asked ≡ Good (Read query mode least wait raw) → Lasting q (Refused (Lost old found)) log → ⊥ }
    ensures crowded { (q : Question) (command : Command) (n : ℕ) (log : Log) → q.asked ≡ Good (Write command) → Lasting q (Refused (TooMany n)) log → ⊥ }
    ensures full { (q : Question) (query : Query) (mode : Mode) (least wait : ℕ) (raw : Bool) (entries bytes : ℕ) (log : Log) → q.asked ≡ Good (Read query mode least wait raw) → Lasting q (Refused (LogFull entries bytes)) log → ⊥ }
{}

/// Where nothing is due at a running server, each request held there waits for what it must: its position is not
/// applied, its round is not confirmed with its commit applied, or its index is not above the one given and its time
/// is not over.
pub fn held_requests_wait()
    ensures { (c : Cluster) → Sound c → (i : ℕ) → due i c ≡ None → (node_of c.world i).halted ≡ false → Each (λ (h : Pending). h.server ≡ i → StillWaits c i h h.stand) c.held }
{}

/// Where nothing is due at a halted server, it holds no request.
pub fn halted_servers_hold_none()
    ensures { (c : Cluster) (i : ℕ) → due i c ≡ None → (node_of c.world i).halted ≡ true → Each (λ (h : Pending). h.server ≡ i → ⊥) c.held }
{}

/// Where each event of a run was whole, no server is behind.
pub fn whole_runs_leave_none_behind()
    ensures { (start : Cluster) → IsStart start → (moves : List Move) (c : Cluster) → Reached start true moves c → (i : ℕ) → due i c ≡ None }
{}

/// The marks of a run, taken as moves, are the moves that lead from its beginning to its end, whatever its stores held.
pub fn marks_lead()
    ensures { (stores : List Store) (start c : Cluster) (whole : Bool) (moves : List Move) → IsBegun stores start → Reached start whole moves c → moves_of c.past ≡ moves }
{}

/// Whole pairs of a delivery and the same message's loss, the message of the lowest number first, are moves of the run
/// that end in as many pairs more.
pub fn settling_makes_pairs()
    ensures { (start : Cluster) (whole : Bool) (n m : ℕ) (moves : List Move) (c c' : Cluster) → Reached start whole moves c → EndInPairs m moves → Settling n c c' →
        (moves' : List Move) × Reached start whole moves' c' × EndInPairs (n + m) moves' }
{}

/// Whole events one after another, as an advance of all clocks makes them, are moves of the run.
#[tactic(auto, using(crate::proofs::Settling::making_reaches))]
pub fn advancing_makes_events()
    ensures { (start : Cluster) (whole : Bool) (events : List Event) (moves : List Move) (c c' : Cluster) → Reached start whole moves c → Making events c c' → Reached start whole (then_made events moves) c' }
{}

/// Nothing that a server noted, the clock of a position, of its taking office or of a renewal, lies ahead of its clock,
/// whatever the stores held.
pub fn nothing_is_noted_ahead()
    ensures { (stores : List Store) (start : Cluster) → IsBegun stores start → (whole : Bool) (moves : List Move) (c : Cluster) → Reached start whole moves c → AreTimely c }
{}

/// A server's durable store counts no fewer failures than there are marks of its halts, whatever the stores held.
pub fn halts_are_counted()
    ensures { (stores : List Store) (start : Cluster) → IsBegun stores start → (whole : Bool) (moves : List Move) (c : Cluster) → Reached start whole moves c → (i : ℕ) → min (halts_in i c.past) (2 ^ 64 - 1) ≤ (node_of c.world i).store.faults }
{}

/// Each server has applied a front of the agreed log, up to its commit at most, and has its clock at each position; the
/// marks tell the agreed log.
pub fn servers_apply_fronts()
    ensures front { (c : Cluster) → Sound c → (i : ℕ) → applied_of c i ≡ take (length (applied_of c i)) c.world.agreed }
    ensures within { (c : Cluster) → Sound c → (i : ℕ) → length (applied_of c i) ≤ (node_of c.world i).commit }
    ensures clocks { (c : Cluster) → Sound c → (i : ℕ) → length (server_of c.servers i).clocks ≡ length (applied_of c i) }
    ensures entries { (c : Cluster) → Sound c → entered_in c.past ≡ c.world.agreed }
{}

/// Whatever is done of what is due at a server leaves less to do there, so making up comes to an end.
pub fn works_leave_less()
    ensures { (c : Cluster) → Ascends c.held → (i : ℕ) → 0 < i → i ≤ length c.servers → (node_of c.world i).commit ≤ length (node_of c.world i).log →
        (w : Work) → IsDue i c w → left i (did i w c) < left i c }
{}

/// Nobody leads or stands for election in term 0.
pub fn leaders_have_terms()
    ensures { (w : World) → IsReached w → (i : ℕ) → ((node_of w i).role ≡ Follower) ⊎ (0 < (node_of w i).term) }
{}

/// A read that waits is answered unchanged once its full wait is over.
#[tactic(auto, using(crate::proofs::FullWait::full_wait_run))]
pub fn unchanged_after_the_full_wait()
    ensures { FullWaitRun }
{}

/// A consistent read is answered once its round is confirmed.
#[tactic(auto, using(crate::proofs::ConsistentRead::consistent_run))]
pub fn a_consistent_read_has_its_round()
    ensures { ConsistentRun }
{}

/// A session is renewed, and ends at twice its TTL after that.
#[tactic(auto, using(crate::proofs::TtlRun::ttl_run))]
pub fn a_renewed_session_ends_later()
    ensures { TtlRun }
{}

/// A lock delay refuses a transaction and a write until just its end.
#[tactic(auto, using(crate::proofs::LockRun::lock_run))]
pub fn a_lock_waits_for_its_delay()
    ensures { LockRun }
{}

/// A removed key is reaped at the leading server's next look.
#[tactic(auto, using(crate::proofs::ReapRun::reap_run))]
pub fn a_removed_key_is_reaped()
    ensures { ReapRun }
{}

/// A step only adds to the marks: its event's own, and then marks that name no move.
pub fn steps_add_marks()
    ensures { (c c' : Cluster) (made : Event) (whole : Bool) → ClusterStep c made c' whole → AddsEvent made c c' }
{}

/// Each number is asked at most once and answered at most once, and only what was asked is taken.
pub fn marks_are_kept()
    ensures { (c : Cluster) → Booked c → AreKept c.past }
{}

/// Deliveries and losses ask and take nothing.
pub fn settling_adds_marks()
    ensures { (n : ℕ) (c c' : Cluster) → Settling n c c' → AddsQuiet c.past c'.past }
{}

/// Nor do the events of an advance, and no others that are no request's.
pub fn advancing_adds_marks()
    ensures { (events : List Event) (c c' : Cluster) → Each AsksNothing events → Making events c c' → AddsQuiet c.past c'.past }
{}

/// A reply in the tray is that of its Answered mark, and shows what its request and its kind give over the agreed log.
pub fn replies_are_theirs()
    ensures { (c : Cluster) → Sound c → (before after : List Out) (r : Reply) → c.tray ≡ before ++ Replied r ∷ after → IsAmong (Answered r.number r.kind r.known r.contact) c.past
        × ((q : Question) → IsAmong (came q) c.past → q.number ≡ r.number → (r ≡ reply_of q r.kind r.known r.contact c.world.agreed) × Lasting q r.kind c.world.agreed) }
{}

/// A request that has no out and is not held was never asked, or it was taken.
pub fn gone_were_taken()
    ensures { (c : Cluster) → Booked c → (n : ℕ) → HasNoOut n c.tray → IsNotHeld n c.held → Among n (asked_of c.past) → Among n (taken_of c.past) }
{}

/// No reply that lasts shows nothing.
#[tactic(auto, using(crate::proofs::Shown::lasting_shows))]
pub fn no_reply_is_blank()
    ensures { (q : Question) (kind : Kind) (log : Log) → Lasting q kind log → shown q kind log ≢ Blank }
{}

/// At a server that noted nothing ahead of its clock, a session's TTL begins anew where the server takes office, applies
/// the creation, or renews the session, and nowhere else; it is pending until its end is proposed.
pub fn ttls_begin_anew()
    ensures { (now : ℕ) (clocks : List ℕ) (o : Office) → IsTimely now clocks o → (row : SessionRow) → TtlLaw now clocks o row }
{}

/// A server's lock delays go on position by position, by its clock at each.
pub fn delays_go_on()
    ensures { (commands : List Command) (clocks : List ℕ) → length commands ≡ length clocks → (key : List ℕ) → DelayLaw commands clocks key }
{}

/// The check that each agent has of its node is its own: neither a request nor the time changes it, takes it away or
/// puts another one beside it, and taking over services does not either.
pub fn own_checks_stay()
    ensures begun { KeepsOwn new_agent }
    ensures asked { (a : ℕ) (op : AgentOp) (g g' : Agent) → KeepsOwn g → change a op g ≡ Some g' → KeepsOwn g' }
    ensures ticked { (ms : ℕ) (g : Agent) → KeepsOwn g → KeepsOwn (ticked ms g) }
    ensures adopted { (services : List ServiceRow) (g : Agent) → KeepsOwn g → KeepsOwn (record g { services = services }) }
{}
