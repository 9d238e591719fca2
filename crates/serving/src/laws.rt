//! What the clients of all processes of a run may conclude. Nothing runs.

ghost use Rattle.std.specs.Prelude.{◌≡◌, ◌<◌, ◌≤◌, ℕ, List};
ghost use Rattle.sessions.specs.SessionReplies.{outcome_code};
ghost use Rattle.node_model.specs.Nodes.{NodeState};
ghost use Rattle.world_model.specs.Lives.{AreLives, Moment, StoragesAreHonest};
ghost use Rattle.serving.specs.Clusters.{IsLogOf, IsServed};
ghost use Rattle.serving.specs.Turns.{IsAnswerToOwn, IsReplyToOwn, Past};

use crate::checkpoints::SLOTS_BETWEEN_CHECKPOINTS;
use crate::claims::MOST_CLAIMS;
use crate::hand_on::HAND_ON_PERIOD;
use crate::patience::{LEAST_PATIENCE, NODE_STEP, SPREADS};
use crate::server::MOST_IN_A_TURN;
use crate::ticks::{BUSY_PERIOD, IDLE_PERIOD};
use stable::Stable;
use synod::SLOTS;

/// One list of submitted commands and no-ops explains every reply and every answer that any client of any process was ever told, where
/// every storage is honest to the end.
pub fn one_list_explains_clients<S: Stable>()
    ensures { (moments : List Moment) (first last : List (NodeState S)) → AreLives S.Stable moments first last
        → StoragesAreHonest S.Stable last → IsLogOf S.Stable moments }
{}

/// Two answers to one query at one position are equal, byte for byte, whichever clients were told them by whichever processes, and two
/// replies at one position have one number, where every storage is honest to the end.
pub fn clients_are_told_the_same<S: Stable>()
    ensures answers { (moments : List Moment) (first last : List (NodeState S)) → AreLives S.Stable moments first last
        → StoragesAreHonest S.Stable last → (one other : Past) → IsServed S.Stable moments one → IsServed S.Stable moments other
        → (here there : ℕ) (a b : List ℕ) → (mine : IsAnswerToOwn one here a) → (yours : IsAnswerToOwn other there b)
        → mine.answered.query ≡ yours.answered.query → mine.answered.position ≡ yours.answered.position → a ≡ b }
    ensures replies { (moments : List Moment) (first last : List (NodeState S)) → AreLives S.Stable moments first last
        → StoragesAreHonest S.Stable last → (one other : Past) → IsServed S.Stable moments one → IsServed S.Stable moments other
        → (here there : ℕ) (a b : List ℕ) → (mine : IsReplyToOwn one here a) → (yours : IsReplyToOwn other there b)
        → mine.replied.position ≡ yours.replied.position → outcome_code mine.replied.reply ≡ outcome_code yours.replied.reply }
{}

/// A turn takes something and not too much, and connections may wait. A checkpoint comes long before the log is full. A node that wants
/// anything ticks before it hands on a request again, and that before any node is impatient. The least patience and an idle node's period
/// are a second at most. Each node has a patience of its own, of which a part is drawn.
pub fn limits_are_in_order()
    ensures turns { (0 < MOST_IN_A_TURN) × (MOST_IN_A_TURN ≤ 1024) }
    ensures claims { (0 < MOST_CLAIMS) × (MOST_CLAIMS ≤ 64) }
    ensures checkpoints { (256 ≤ SLOTS_BETWEEN_CHECKPOINTS) × (SLOTS_BETWEEN_CHECKPOINTS ≤ 4096) × (SLOTS_BETWEEN_CHECKPOINTS < SLOTS) }
    ensures ticks { (0 < BUSY_PERIOD) × (BUSY_PERIOD ≤ IDLE_PERIOD) × (IDLE_PERIOD ≤ 1000) }
    ensures hands_on { BUSY_PERIOD ≤ HAND_ON_PERIOD }
    ensures patience { (HAND_ON_PERIOD ≤ LEAST_PATIENCE) × (LEAST_PATIENCE ≤ 1000) }
    ensures spread { (0 < NODE_STEP) × (1 < SPREADS) }
{}
