//! The plain database: features by id, changed by operations and asked by queries.
//!
//! `Db::apply` executes one operation and returns its reply, and `Db::answer` returns the text of a query.
//! `specs/Operations.antt` defines an operation's effect on a list of features in the order of their ids, and
//! `specs/Answers.antt` the text, by values, cuts, ever and always. After an error a database is unchanged.
//!
//! A feature is found by binary search. `Query::Within` asks the features that the time index finds in its period, and no other.
//! A feature keeps the least rectangle that has its positions. Where that is apart from a query's rectangle, or inside it, the answer
//! takes no look at its steps or legs, and only a binary search of its instants where it has values at these alone.
//! Of each block of legs it keeps a rectangle, too: over long periods the legs of blocks that are apart from a query's are passed.
#![tactic(auto)]

mod answers;
mod blocks;
mod bounds;
mod db;
mod laws;
mod line;
mod op;
mod query;
mod reply;
mod stored_feature;

pub use db::{Db, MOST_FEATURES};
pub use laws::{an_answer_is_one, features_stay_a_database, features_stay_valid, limits};
pub use op::{Addition, Op};
pub use query::Query;
pub use reply::Reply;
