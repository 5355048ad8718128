//! calls from C → contexts of rules and shared tables in handles that C holds, and the verdicts of
//! keys
//!
//! Each export is declared in `include/aclc.h`, and calls the function of the crate below that does
//! the work. C holds a context by a handle of two words; a call takes the context out of it, works,
//! and puts it back. So it is with a table, which is copied out of a context and then shared.
//!
//! ```text
//!     C ── handle ──► take ──► Context: AclContext, rows for lanes ──► put ──► handle
//!                                  │ copy
//!                                  ▼
//!     C ── handle ──► take ──► Shared: Arc of a table, rows for lanes ──► put ──► handle
//! ```
//!
//! - `codes`: what a call answers
//! - `given`, `rules`, `batch`: definitions, rules and keys as C gives them
//! - `context`, `create`: what a handle of a context leads to, and the calls on it
//! - `copy`, `shared`: what a handle of a table leads to, and the calls on it
//! - `keys`: keys that stand apart, each behind a pointer
//! - `marks`: which categories of keys no rule wins
//! - `images`: tables that are saved to bytes, and loaded from them
//! - `texts`: what each answer says
//! - `box_parts`, `slot`, `handle`: a box behind a pointer that C holds
//! - `table_slot`, `table_handle`: the same for a table
//! - `exports`, `table_exports`, `key_exports`, `image_exports`: the calls of `aclc.h`
#![tactic(auto)]

mod batch;
mod box_parts;
mod codes;
mod context;
mod copy;
mod create;
mod exports;
mod given;
mod handle;
mod image_exports;
mod images;
mod key_exports;
mod keys;
mod marks;
mod rules;
mod shared;
mod slot;
mod table_exports;
mod table_handle;
mod table_slot;
mod texts;
