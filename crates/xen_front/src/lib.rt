//! Netfront's queue: it sends packets through granted pages, posts buffers, and takes what the other end gives, one
//! event at a time.
//!
//! - `front`: a front and all of its calls
//! - `by_event`: what an activity wants and does with an answer (`feeding`): a send (`sending`), a post (`posting`), a poll
//!   (`taking` for tx responses, `receiving` for a packet, `extras` for its extra); its ids and places
//! - `in_one_go`: a whole activity over a bus (`drive`), a packet's pieces on references alone (`straight`)
//! - `packet`, `state`, `turn`: what these work on; `laws`: what holds of every activity
//!
//! Among the definitions, `Activities` is the authority, the table of activities; `Tree` is the computation that makes
//! them, and `Rest` what is left of it at a phase.
#![tactic(auto)]

mod by_event;
pub mod front;
mod in_one_go;
pub mod laws;
mod packet;
pub mod state;
pub mod turn;

pub use front::Front;
pub use state::{Counts, FrontState, Ring};
pub use turn::{FrontHalt, PollRefusal, PostRefusal, RxTurn, SendRefusal};
pub use xen_buffers::{FrontDesc, FrontWiring, GrantedPage};
pub use xen_netif::{ACCEPTS_WHOLE, Accepts, RxOffload};
