//! What the words of the command line ask for.

ghost use Rattle.std.specs.Prelude.{◌≡◌, ◌≢◌, ℕ, MatchOption, map, string_bytes};
ghost use Rattle.conformance.specs.Tasks.{name_of, scene_name, point_name, query_name, apply_name, encode_name, decode_name, part_name};
ghost use Rattle.conformance.specs.Tasks.{text_name, log_name, IsReadAs, NamesTask, AsksForTask};

/// What is timed.
#[derive(Clone, Copy)]
pub enum Work {
    /// What is done with a moving point of so many points.
    Scene(SceneWork),
    /// What is asked of a part of a node, which holds so many things by then.
    Part(PartWork),
    /// What is done with the snapshot text of a machine whose features have so many points.
    Text(TextWork),
    /// What is done to the votes in a storage in memory, at so many slots.
    Log(LogWork),
}

/// What is done with a moving point of so many points.
#[derive(Clone, Copy)]
pub enum SceneWork {
    /// A question of one moving point.
    Point(PointWork),
    /// A query of a plain database.
    Query(QueryWork),
    /// An operation on a plain database.
    Apply(ApplyWork),
    /// A document, read and written again.
    Check,
    /// Requests of several clients, executed by one machine.
    Execute,
    /// A message, spelled as a frame.
    Encode(Sent),
    /// The frame of a message, read.
    Decode(Sent),
}

/// What is asked of one moving point.
#[derive(Clone, Copy)]
pub enum PointWork {
    /// A value at an instant.
    ValueAt,
    /// Ever in a corner that the point doesn't come to, for a short period in the middle.
    EverMiddle,
    /// The same for all of its time.
    EverWhole,
    /// Always in an area that has all of its positions, for a short period in the middle.
    AlwaysMiddle,
    /// The same for all of its time.
    AlwaysWhole,
    /// The cut to a short period in the middle.
    CutMiddle,
    /// The cut to all of its time.
    CutWhole,
    /// The canonical document.
    Write,
    /// The text of a datetime, read again.
    Datetimes,
}

/// What a full database of moving points is asked, each round another one of them.
#[derive(Clone, Copy)]
pub enum QueryWork {
    /// Its value at an instant.
    At,
    /// Its cut to a short period in the middle.
    Cut,
    /// Its cut to all of its time.
    CutWhole,
    /// Whether it is ever in a corner that it doesn't come to, for a short period in the middle.
    Ever,
    /// The same for all of its time.
    EverWhole,
    /// Whether it is always in an area that has all of its positions, for a short period.
    Always,
    /// Which of all are ever in such an area.
    Within,
    /// Its canonical document.
    Get,
    /// How many there are.
    Count,
}

/// What is done to a full database of moving points.
#[derive(Clone, Copy)]
pub enum ApplyWork {
    /// Each round puts another known one.
    Put,
    /// Each round appends a point. Every 256th round begins with another one, and puts it anew.
    Append,
    /// One round removes, and the next puts it again.
    Remove,
}

/// A message that is spelled or read. Each sequence that it puts has as many instants as a request may put.
#[derive(Clone, Copy)]
pub enum Sent {
    /// The smallest message of a campaign.
    Prepare,
    /// A promise that tells as many votes as it may, each for a put.
    Promise,
    /// An accept of a put.
    AcceptPut,
    /// A vote for a point that is added.
    AcceptedAppend,
}

/// What is asked of a part of a node.
#[derive(Clone, Copy)]
pub enum PartWork {
    /// Votes are told to a learner that has learnt so many slots.
    Tellings,
    /// An acceptor that holds so many votes promises.
    Promises,
    /// A proposer at which so many requests wait proposes.
    Proposals,
    /// Which of so many entries of a time index overlap a period.
    Overlapping,
    /// Three nodes carry so many requests out, one after another; their frames are flushed.
    Flushed,
    /// The same through queues, which are pumped.
    Pumped,
}

/// What is done with the snapshot text of a machine that has as many features and clients as one may have.
#[derive(Clone, Copy)]
pub enum TextWork {
    /// Its bytes are copied.
    Copied,
    /// It is written.
    Written,
    /// A machine is restored from it.
    Restored,
    /// The same, and the text of that machine is written and compared with it.
    WrittenAgain,
}

/// What is done to the votes in a storage in memory.
#[derive(Clone, Copy)]
pub enum LogWork {
    /// Each round puts votes at so many further slots.
    Put,
    /// Each round trims a full log by so many further slots.
    Trimmed,
    /// The votes at so many slots are gone, and each round trims the log by them once more.
    TrimmedAgain,
}

/// A work, how large that is on which it is done, and how many times.
#[derive(Clone, Copy)]
pub struct Task {
    pub work: Work,
    /// How many points a moving point has, how many things a part of a node holds, or how many slots are meant.
    pub size: u16,
    pub rounds: u32,
}

/// The task that the words ask for: `WORK SIZE ROUNDS`, or `WORK ROUNDS` for a size of one.
pub fn task_of(words: &[String]) -> Option<Task>
    ensures { MatchOption result ((task : Task) → ¬ AsksForTask (map string_bytes words.now) task)
        (AsksForTask (map string_bytes words.now)) }
{
    match words {
        [work, rounds] => numbered(work.as_str(), "1", rounds.as_str()),
        [work, size, rounds] => numbered(work.as_str(), size.as_str(), rounds.as_str()),
        _ => None,
    }
}

/// The task of this work and these numbers.
fn numbered(work: &str, size: &str, rounds: &str) -> Option<Task>
    ensures { MatchOption result ((task : Task) → ¬ NamesTask work.now size.now rounds.now task)
        (NamesTask work.now size.now rounds.now) }
{
    let work = work_of(work)?;
    let size = size_of(size)?;
    let rounds = number_of_rounds(rounds)?;
    Some(Task { work, size, rounds })
}

/// The size that the word is read as.
fn size_of(word: &str) -> Option<u16>
    ensures { MatchOption result ((n : ℕ) → ¬ IsReadAs 16 word.now n) (IsReadAs 16 word.now) }
{
    word.parse::<u16>().ok()
}

/// The number of rounds that the word is read as.
fn number_of_rounds(word: &str) -> Option<u32>
    ensures { MatchOption result ((n : ℕ) → ¬ IsReadAs 32 word.now n) (IsReadAs 32 word.now) }
{
    word.parse::<u32>().ok()
}

/// The work of this name.
#[tactic(auto, using(crate::proofs::NameLemmas::no_work_named))]
fn work_of(name: &str) -> Option<Work>
    ensures { MatchOption result ((work : Work) → name.now ≢ name_of work)
        (λ work. name.now ≡ name_of work) }
{
    if let Some(work) = scene_work_of(name) {
        return Some(Work::Scene(work));
    }
    if let Some(work) = part_work_of(name) {
        return Some(Work::Part(work));
    }
    if let Some(work) = text_work_of(name) {
        return Some(Work::Text(work));
    }
    log_work_of(name).map(Work::Log)
}

#[tactic(auto, using(crate::proofs::NameLemmas::none_named))]
fn scene_work_of(name: &str) -> Option<SceneWork>
    ensures { MatchOption result ((work : SceneWork) → name.now ≢ scene_name work)
        (λ work. name.now ≡ scene_name work) }
{
    if let Some(work) = point_work_of(name) {
        return Some(SceneWork::Point(work));
    }
    if let Some(work) = query_work_of(name) {
        return Some(SceneWork::Query(work));
    }
    if let Some(work) = apply_work_of(name) {
        return Some(SceneWork::Apply(work));
    }
    if let Some(sent) = encoded_of(name) {
        return Some(SceneWork::Encode(sent));
    }
    if let Some(sent) = decoded_of(name) {
        return Some(SceneWork::Decode(sent));
    }
    match name {
        "check" => Some(SceneWork::Check),
        "execute" => Some(SceneWork::Execute),
        _ => None,
    }
}

fn point_work_of(name: &str) -> Option<PointWork>
    ensures { MatchOption result ((work : PointWork) → name.now ≢ point_name work)
        (λ work. name.now ≡ point_name work) }
{
    match name {
        "value_at" => Some(PointWork::ValueAt),
        "ever_middle" => Some(PointWork::EverMiddle),
        "ever_whole" => Some(PointWork::EverWhole),
        "always_middle" => Some(PointWork::AlwaysMiddle),
        "always_whole" => Some(PointWork::AlwaysWhole),
        "cut_middle" => Some(PointWork::CutMiddle),
        "cut_whole" => Some(PointWork::CutWhole),
        "write" => Some(PointWork::Write),
        "datetimes" => Some(PointWork::Datetimes),
        _ => None,
    }
}

fn query_work_of(name: &str) -> Option<QueryWork>
    ensures { MatchOption result ((work : QueryWork) → name.now ≢ query_name work)
        (λ work. name.now ≡ query_name work) }
{
    match name {
        "store_at" => Some(QueryWork::At),
        "store_cut" => Some(QueryWork::Cut),
        "store_cut_whole" => Some(QueryWork::CutWhole),
        "store_ever" => Some(QueryWork::Ever),
        "store_ever_whole" => Some(QueryWork::EverWhole),
        "store_always" => Some(QueryWork::Always),
        "store_within" => Some(QueryWork::Within),
        "store_get" => Some(QueryWork::Get),
        "store_count" => Some(QueryWork::Count),
        _ => None,
    }
}

fn apply_work_of(name: &str) -> Option<ApplyWork>
    ensures { MatchOption result ((work : ApplyWork) → name.now ≢ apply_name work)
        (λ work. name.now ≡ apply_name work) }
{
    match name {
        "store_put" => Some(ApplyWork::Put),
        "store_append" => Some(ApplyWork::Append),
        "store_remove" => Some(ApplyWork::Remove),
        _ => None,
    }
}

fn encoded_of(name: &str) -> Option<Sent>
    ensures { MatchOption result ((sent : Sent) → name.now ≢ encode_name sent)
        (λ sent. name.now ≡ encode_name sent) }
{
    match name {
        "frame_encode_prepare" => Some(Sent::Prepare),
        "frame_encode_promise" => Some(Sent::Promise),
        "frame_encode_accept_put" => Some(Sent::AcceptPut),
        "frame_encode_accepted_append" => Some(Sent::AcceptedAppend),
        _ => None,
    }
}

fn decoded_of(name: &str) -> Option<Sent>
    ensures { MatchOption result ((sent : Sent) → name.now ≢ decode_name sent)
        (λ sent. name.now ≡ decode_name sent) }
{
    match name {
        "frame_decode_prepare" => Some(Sent::Prepare),
        "frame_decode_promise" => Some(Sent::Promise),
        "frame_decode_accept_put" => Some(Sent::AcceptPut),
        "frame_decode_accepted_append" => Some(Sent::AcceptedAppend),
        _ => None,
    }
}

fn part_work_of(name: &str) -> Option<PartWork>
    ensures { MatchOption result ((work : PartWork) → name.now ≢ part_name work)
        (λ work. name.now ≡ part_name work) }
{
    match name {
        "tellings" => Some(PartWork::Tellings),
        "promises" => Some(PartWork::Promises),
        "proposals" => Some(PartWork::Proposals),
        "overlapping" => Some(PartWork::Overlapping),
        "flushed" => Some(PartWork::Flushed),
        "pumped" => Some(PartWork::Pumped),
        _ => None,
    }
}

fn text_work_of(name: &str) -> Option<TextWork>
    ensures { MatchOption result ((work : TextWork) → name.now ≢ text_name work)
        (λ work. name.now ≡ text_name work) }
{
    match name {
        "text_copied" => Some(TextWork::Copied),
        "text_written" => Some(TextWork::Written),
        "text_restored" => Some(TextWork::Restored),
        "text_written_again" => Some(TextWork::WrittenAgain),
        _ => None,
    }
}

fn log_work_of(name: &str) -> Option<LogWork>
    ensures { MatchOption result ((work : LogWork) → name.now ≢ log_name work)
        (λ work. name.now ≡ log_name work) }
{
    match name {
        "votes_put" => Some(LogWork::Put),
        "votes_trimmed" => Some(LogWork::Trimmed),
        "votes_trimmed_again" => Some(LogWork::TrimmedAgain),
        _ => None,
    }
}
