//! Queues of indices, threaded through links.

ghost use Rattle.std.specs.Prelude.{◌≡◌, slice_set, if◌then◌else◌};
ghost use Rattle.spm_tables.specs.Queues.{link_at, ends_at, with_after, with_before, joined, unlinked, joined_ends, unlinked_ends};

use crate::item::QueuedMessage;
use crate::slices::put;

/// The indices before and after one in its queue.
#[derive(Clone, Copy, Debug)]
pub(crate) struct Link {
    pub(crate) before: Option<u32>,
    pub(crate) after: Option<u32>,
}

/// The first and the last index of a queue.
#[derive(Clone, Copy, Debug)]
pub(crate) struct Ends {
    pub(crate) first: Option<u32>,
    pub(crate) last: Option<u32>,
}

pub(crate) const NO_LINK: Link = Link {
    before: None,
    after: None,
};

pub(crate) const NO_ENDS: Ends = Ends {
    first: None,
    last: None,
};

fn link_at(links: &[Link], index: u32) -> Link
    ensures { result ≡ link_at links.now index }
{
    match links.get(index as usize) {
        Some(link) => *link,
        None => NO_LINK,
    }
}

pub(crate) fn ends_at(ends: &[Ends], service: usize) -> Ends
    ensures { result ≡ ends_at ends.now service }
{
    match ends.get(service) {
        Some(ends) => *ends,
        None => NO_ENDS,
    }
}

fn set_after(links: &mut [Link], index: Option<u32>, after: Option<u32>)
    ensures { links.new ≡ with_after index after links.old }
{
    if let Some(index) = index {
        let before = link_at(links, index).before;
        put(links, index, Link { before, after });
    }
}

fn set_before(links: &mut [Link], index: Option<u32>, before: Option<u32>)
    ensures { links.new ≡ with_before index before links.old }
{
    if let Some(index) = index {
        let after = link_at(links, index).after;
        put(links, index, Link { before, after });
    }
}

/// Puts an index last into the queue of a service.
pub(crate) fn join(links: &mut [Link], ends: &mut [Ends], service: u32, index: u32)
    ensures links { links.new ≡ joined links.old (ends_at ends.old service).last index }
    ensures ends { ends.new
        ≡ slice_set ends.old service (joined_ends (ends_at ends.old service) index) }
{
    let old = ends_at(ends, service as usize);
    let before = old.last;
    let after = None;
    put(links, index, Link { before, after });
    set_after(links, before, Some(index));
    let first = if old.first.is_none() {
        Some(index)
    } else {
        old.first
    };
    let last = Some(index);
    put(ends, service, Ends { first, last });
}

/// Takes a message that goes out of its queue, where it waits in one.
pub(crate) fn leave(links: &mut [Link], ends: &mut [Ends], item: &QueuedMessage, index: u32)
    ensures links { links.new
        ≡ (if item.now.delivered then links.old else unlinked links.old (link_at links.old index)) }
    ensures ends { ends.new ≡ (if item.now.delivered
        then ends.old
        else slice_set ends.old item.now.service
        (unlinked_ends (ends_at ends.old item.now.service) (link_at links.old index))) }
{
    if !item.delivered {
        unlink(links, ends, item.service, index);
    }
}

/// Takes an index out of the queue of a service.
pub(crate) fn unlink(links: &mut [Link], ends: &mut [Ends], service: u32, index: u32)
    ensures links { links.new ≡ unlinked links.old (link_at links.old index) }
    ensures ends { ends.new ≡ slice_set ends.old service
        (unlinked_ends (ends_at ends.old service) (link_at links.old index)) }
{
    let link = link_at(links, index);
    set_after(links, link.before, link.after);
    set_before(links, link.after, link.before);
    let old = ends_at(ends, service as usize);
    let first = if link.before.is_none() {
        link.after
    } else {
        old.first
    };
    let last = if link.after.is_none() {
        link.before
    } else {
        old.last
    };
    put(ends, service, Ends { first, last });
}
