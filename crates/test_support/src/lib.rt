//! Shared parts of the test crates: small contents with their keys, stores with these contents,
//! graphs of numbers, and four small stores of other kinds, which are proved to implement the
//! traits of `oci_store`.
//!
//! A [`Sample`] is one of the contents. [`DeviceStore`] is on a [`Device`] with one file per
//! digest, which counts its puts and gets and can fail one of each: the tests of copies use it.
//! [`FailingClosedStore`] forwards all pushes but one to a closed store. [`PublishedStore`] only
//! publishes, and can halt. [`OneContent`] is a source of one content, which may be unreadable.
#![tactic(auto)]

mod contents;
mod device;
mod failing_closed;
mod graphs;
mod one_content;
mod published;
mod samples;

pub use contents::{
    Content, DOCKER_IMAGE, EMPTY, FOREIGN, IMAGE, INDEX, LAYER, Sample, descriptor, image, index,
};
pub use device::{Device, DeviceStore};
pub use failing_closed::FailingClosedStore;
pub use graphs::{Shape, below, graph, graph_of, random_graph, random_list};
pub use one_content::OneContent;
pub use published::PublishedStore;
pub use samples::{
    closed, gives, gives_sample, holds, is_closed, keys, memory, on_device, put_chain, put_content,
    unreadable,
};
