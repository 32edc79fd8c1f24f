//! Reading messages whose lists and bytes are lent out of the payload.
ghost use Rattle.std.specs.Prelude.{◌≡◌};
ghost use Rattle.cf_view.specs.{GivesFirst};
ghost use Rattle.cf_bytes.specs.{Reads, list_at, counted_bytes_at};
ghost use Rattle.cf_msg.specs.{of_cut, hash_item_at, header_item_at, entry_at, entries_at, filter_hashes_at, version_at, ping_at, pong_at, getheaders_at, headers_at, getdata_at, inv_at, block_message_at, getcfilters_at, cfilter_at, getcfheaders_at, cfheaders_at, getcfcheckpt_at, cfcheckpt_at, fields_at, whole_at, message_of};
ghost use Rattle.cf_lent.specs.View.{Views, msg_of};

use crate::views::View;
use cf_block::Header;
use cf_bytes::{Cut, Hash32};
use cf_frame::Lent;
use cf_msg::{
    Cause, Inventory, Kind, MAX_ENTRIES, MAX_FILTER_HASHES, MAX_HEADERS, MAX_LOCATOR, Malformed,
    address_of, byte_or_none, count_of, entry_of, hash_of, header_of, kind_of,
};
use cf_view::{Items, view_block};
use std::marker::Model;

/// Bytes of a payload, lent. A contract sees them as a list.
#[derive(Drop)]
pub struct Text<'a> {
    bytes: &'a [u8],
}

impl<'a> Model for Text<'a> {
    ghost use Rattle.std.specs.Prelude.{ℕ, List};

    ghost Value = { List ℕ };

    ghost view = { λ t. t.bytes.now };
}

impl<'a> Text<'a> {
    /// The bytes, lent.
    pub fn as_slice(&self) -> &'a [u8]
        ensures { result.now ≡ self.now }
    {
        self.bytes
    }
}

/// Hashes that are read from a lent payload one after another. A contract sees those that are left.
#[derive(Drop)]
pub struct HashesView<'a> {
    items: Items<'a>,
}

impl<'a> Model for HashesView<'a> {
    ghost use Rattle.std.specs.Prelude.{List};
    ghost use Rattle.cf_bytes.specs.declared.hash.Hash32.{Hash32};
    ghost use Rattle.cf_view.specs.{AreThere, items_in};
    ghost use Rattle.cf_msg.specs.{hash_item_at};

    ghost Value = { List Hash32 };

    ghost view = { λ v. items_in hash_item_at v.items.left v.items.rest.now };

    ghost invariant = { λ v. AreThere hash_item_at v.items.left v.items.rest.now };
}

impl<'a> HashesView<'a> {
    /// The first that is left, if one is.
    pub fn next(&mut self) -> Option<Hash32>
        ensures { GivesFirst self.old result self.new }
    {
        self.items.next(|cut| hash_of(cut))
    }
}

fn view_hashes<'a>(count: u64, cut: &mut Cut<'a>) -> Result<HashesView<'a>, Cause>
    ensures { Reads (λ x. x) (list_at hash_item_at count cut.old) result cut.new }
{
    let items = Items::pass(count, cut, |cut| hash_of(cut))?;
    Ok(HashesView { items })
}

/// Headers that are read from a lent payload one after another. A contract sees those that are left.
#[derive(Drop)]
pub struct HeadersView<'a> {
    items: Items<'a>,
}

impl<'a> Model for HeadersView<'a> {
    ghost use Rattle.std.specs.Prelude.{List};
    ghost use Rattle.cf_block.specs.declared.header.Header.{Header};
    ghost use Rattle.cf_view.specs.{AreThere, items_in};
    ghost use Rattle.cf_msg.specs.{header_item_at};

    ghost Value = { List Header };

    ghost view = { λ v. items_in header_item_at v.items.left v.items.rest.now };

    ghost invariant = { λ v. AreThere header_item_at v.items.left v.items.rest.now };
}

impl<'a> HeadersView<'a> {
    /// The first that is left, if one is.
    pub fn next(&mut self) -> Option<Header>
        ensures { GivesFirst self.old result self.new }
    {
        self.items.next(|cut| header_of(cut))
    }
}

fn view_headers<'a>(count: u64, cut: &mut Cut<'a>) -> Result<HeadersView<'a>, Cause>
    ensures { Reads (λ x. x) (list_at header_item_at count cut.old) result cut.new }
{
    let items = Items::pass(count, cut, |cut| header_of(cut))?;
    Ok(HeadersView { items })
}

/// Entries that are read from a lent payload one after another. A contract sees those that are left.
#[derive(Drop)]
pub struct EntriesView<'a> {
    items: Items<'a>,
}

impl<'a> Model for EntriesView<'a> {
    ghost use Rattle.std.specs.Prelude.{List};
    ghost use Rattle.cf_msg.specs.declared.msg.Inventory.{Inventory};
    ghost use Rattle.cf_view.specs.{AreThere, items_in};
    ghost use Rattle.cf_msg.specs.{entry_at};

    ghost Value = { List Inventory };

    ghost view = { λ v. items_in entry_at v.items.left v.items.rest.now };

    ghost invariant = { λ v. AreThere entry_at v.items.left v.items.rest.now };
}

impl<'a> EntriesView<'a> {
    /// The first that is left, if one is.
    pub fn next(&mut self) -> Option<Inventory>
        ensures { GivesFirst self.old result self.new }
    {
        self.items.next(|cut| entry_of(cut))
    }
}

fn view_entry_list<'a>(count: u64, cut: &mut Cut<'a>) -> Result<EntriesView<'a>, Cause>
    ensures { Reads (λ x. x) (list_at entry_at count cut.old) result cut.new }
{
    let items = Items::pass(count, cut, |cut| entry_of(cut))?;
    Ok(EntriesView { items })
}

/// The message that a lent frame carries, its lists and bytes lent. It is refused as `read` refuses it: at the first
/// field that can't be read, with the number of payload bytes before that field. It takes no memory.
#[tactic(auto, unfolding(cf_msg::specs::Reading::message_of))]
pub fn view<'a>(frame: &Lent<'a>) -> Result<View<'a>, Malformed>
    ensures { Views (message_of frame.now) result }
{
    let payload = frame.payload;
    let mut cut = Cut::new(payload);
    match view_whole(&frame.command, &mut cut) {
        Ok(view) => Ok(view),
        Err(cause) => {
            let place = payload.len().saturating_sub(cut.rest().len());
            let command = frame.command;
            Err(Malformed {
                command,
                place,
                cause,
            })
        }
    }
}

#[tactic(auto, unfolding(cf_msg::specs::Reading::whole_at))]
fn view_whole<'a>(command: &[u8; 12], cut: &mut Cut<'a>) -> Result<View<'a>, Cause>
    ensures { Reads msg_of (whole_at command.now cut.old) result cut.new }
{
    let view = view_fields(kind_of(command), command, cut)?;
    if !cut.rest().is_empty() {
        return Err(Cause::Rest);
    }
    Ok(view)
}

#[tactic(auto, unfolding(cf_msg::specs::Reading::fields_at))]
fn view_fields<'a>(kind: Kind, command: &[u8; 12], cut: &mut Cut<'a>) -> Result<View<'a>, Cause>
    ensures { Reads msg_of (fields_at kind command.now cut.old) result cut.new }
{
    match kind {
        Kind::Version => view_version(cut),
        Kind::Verack => Ok(View::Verack),
        Kind::Ping => view_ping(cut),
        Kind::Pong => view_pong(cut),
        Kind::GetHeaders => view_getheaders(cut),
        Kind::Headers => view_header_list(cut),
        Kind::GetData => view_getdata(cut),
        Kind::Inv => view_inv(cut),
        Kind::Block => view_block_of(cut),
        Kind::GetCfilters => view_getcfilters(cut),
        Kind::Cfilter => view_cfilter(cut),
        Kind::GetCfheaders => view_getcfheaders(cut),
        Kind::Cfheaders => view_cfheaders(cut),
        Kind::GetCfcheckpt => view_getcfcheckpt(cut),
        Kind::Cfcheckpt => view_cfcheckpt(cut),
        Kind::Other => view_other(command, cut),
    }
}

#[tactic(auto, unfolding(cf_msg::specs::Reading::fields_at))]
fn view_other<'a>(command: &[u8; 12], cut: &mut Cut<'a>) -> Result<View<'a>, Cause>
    ensures { Reads msg_of (fields_at Kind.Other command.now cut.old) result cut.new }
{
    let bytes = cut.rest();
    *cut = Cut::new(&bytes[bytes.len()..]);
    let command = *command;
    Ok(View::Other {
        command,
        payload: Text { bytes },
    })
}

// Bytes with their count before them.
fn view_counted<'a>(cut: &mut Cut<'a>) -> Result<Text<'a>, Cause>
    ensures { Reads (λ b. b) (of_cut (counted_bytes_at cut.old)) result cut.new }
{
    let count = cut.compact()?;
    let bytes = cut.bytes(count as usize)?;
    Ok(Text { bytes })
}

#[tactic(auto, unfolding(cf_msg::specs::Reading::entries_at))]
fn view_entries<'a>(cut: &mut Cut<'a>) -> Result<EntriesView<'a>, Cause>
    ensures { Reads (λ e. e) (entries_at cut.old) result cut.new }
{
    let count = count_of(MAX_ENTRIES, cut)?;
    view_entry_list(count, cut)
}

#[tactic(auto, unfolding(cf_msg::specs::Reading::filter_hashes_at))]
fn view_filter_hashes<'a>(cut: &mut Cut<'a>) -> Result<HashesView<'a>, Cause>
    ensures { Reads (λ h. h) (filter_hashes_at cut.old) result cut.new }
{
    let count = count_of(MAX_FILTER_HASHES, cut)?;
    view_hashes(count, cut)
}

// A block takes all the bytes. Where it is refused the reader then stands at the refused field.
#[tactic(auto, unfolding(cf_msg::specs::Reading::block_message_at), using(cf_block::proofs::Taken::block_place))]
fn view_block_of<'a>(cut: &mut Cut<'a>) -> Result<View<'a>, Cause>
    ensures { Reads msg_of (block_message_at cut.old) result cut.new }
{
    let bytes = cut.rest();
    match view_block(bytes) {
        Ok(block) => {
            *cut = Cut::new(&bytes[bytes.len()..]);
            Ok(View::Block(block))
        }
        Err(fault) => {
            *cut = Cut::new(&bytes[fault.place as usize..]);
            Err(Cause::Block(fault.kind))
        }
    }
}

#[tactic(auto, unfolding(cf_msg::specs::Reading::version_at))]
fn view_version<'a>(cut: &mut Cut<'a>) -> Result<View<'a>, Cause>
    ensures { Reads msg_of (version_at cut.old) result cut.new }
{
    let version = cut.i32()?;
    let services = cut.u64()?;
    let time = cut.i64()?;
    let to = address_of(cut)?;
    let from = address_of(cut)?;
    let nonce = cut.u64()?;
    let agent = view_counted(cut)?;
    let height = cut.i32()?;
    let relay = byte_or_none(cut);
    Ok(View::Version {
        version,
        services,
        time,
        to,
        from,
        nonce,
        agent,
        height,
        relay,
    })
}

#[tactic(auto, unfolding(cf_msg::specs::Reading::ping_at))]
fn view_ping<'a>(cut: &mut Cut<'a>) -> Result<View<'a>, Cause>
    ensures { Reads msg_of (ping_at cut.old) result cut.new }
{
    let nonce = cut.u64()?;
    Ok(View::Ping(nonce))
}

#[tactic(auto, unfolding(cf_msg::specs::Reading::pong_at))]
fn view_pong<'a>(cut: &mut Cut<'a>) -> Result<View<'a>, Cause>
    ensures { Reads msg_of (pong_at cut.old) result cut.new }
{
    let nonce = cut.u64()?;
    Ok(View::Pong(nonce))
}

#[tactic(auto, unfolding(cf_msg::specs::Reading::getheaders_at))]
fn view_getheaders<'a>(cut: &mut Cut<'a>) -> Result<View<'a>, Cause>
    ensures { Reads msg_of (getheaders_at cut.old) result cut.new }
{
    let version = cut.u32()?;
    let count = count_of(MAX_LOCATOR, cut)?;
    let locator = view_hashes(count, cut)?;
    let stop = hash_of(cut)?;
    Ok(View::GetHeaders {
        version,
        locator,
        stop,
    })
}

#[tactic(auto, unfolding(cf_msg::specs::Reading::headers_at))]
fn view_header_list<'a>(cut: &mut Cut<'a>) -> Result<View<'a>, Cause>
    ensures { Reads msg_of (headers_at cut.old) result cut.new }
{
    let count = count_of(MAX_HEADERS, cut)?;
    let headers = view_headers(count, cut)?;
    Ok(View::Headers(headers))
}

#[tactic(auto, unfolding(cf_msg::specs::Reading::getdata_at))]
fn view_getdata<'a>(cut: &mut Cut<'a>) -> Result<View<'a>, Cause>
    ensures { Reads msg_of (getdata_at cut.old) result cut.new }
{
    let entries = view_entries(cut)?;
    Ok(View::GetData(entries))
}

#[tactic(auto, unfolding(cf_msg::specs::Reading::inv_at))]
fn view_inv<'a>(cut: &mut Cut<'a>) -> Result<View<'a>, Cause>
    ensures { Reads msg_of (inv_at cut.old) result cut.new }
{
    let entries = view_entries(cut)?;
    Ok(View::Inv(entries))
}

#[tactic(auto, unfolding(cf_msg::specs::Reading::getcfilters_at))]
fn view_getcfilters<'a>(cut: &mut Cut<'a>) -> Result<View<'a>, Cause>
    ensures { Reads msg_of (getcfilters_at cut.old) result cut.new }
{
    let filter = cut.u8()?;
    let start = cut.u32()?;
    let stop = hash_of(cut)?;
    Ok(View::GetCfilters {
        filter,
        start,
        stop,
    })
}

#[tactic(auto, unfolding(cf_msg::specs::Reading::cfilter_at))]
fn view_cfilter<'a>(cut: &mut Cut<'a>) -> Result<View<'a>, Cause>
    ensures { Reads msg_of (cfilter_at cut.old) result cut.new }
{
    let filter = cut.u8()?;
    let block = hash_of(cut)?;
    let bytes = view_counted(cut)?;
    Ok(View::Cfilter {
        filter,
        block,
        bytes,
    })
}

#[tactic(auto, unfolding(cf_msg::specs::Reading::getcfheaders_at))]
fn view_getcfheaders<'a>(cut: &mut Cut<'a>) -> Result<View<'a>, Cause>
    ensures { Reads msg_of (getcfheaders_at cut.old) result cut.new }
{
    let filter = cut.u8()?;
    let start = cut.u32()?;
    let stop = hash_of(cut)?;
    Ok(View::GetCfheaders {
        filter,
        start,
        stop,
    })
}

#[tactic(auto, unfolding(cf_msg::specs::Reading::cfheaders_at))]
fn view_cfheaders<'a>(cut: &mut Cut<'a>) -> Result<View<'a>, Cause>
    ensures { Reads msg_of (cfheaders_at cut.old) result cut.new }
{
    let filter = cut.u8()?;
    let stop = hash_of(cut)?;
    let previous = hash_of(cut)?;
    let hashes = view_filter_hashes(cut)?;
    Ok(View::Cfheaders {
        filter,
        stop,
        previous,
        hashes,
    })
}

#[tactic(auto, unfolding(cf_msg::specs::Reading::getcfcheckpt_at))]
fn view_getcfcheckpt<'a>(cut: &mut Cut<'a>) -> Result<View<'a>, Cause>
    ensures { Reads msg_of (getcfcheckpt_at cut.old) result cut.new }
{
    let filter = cut.u8()?;
    let stop = hash_of(cut)?;
    Ok(View::GetCfcheckpt { filter, stop })
}

#[tactic(auto, unfolding(cf_msg::specs::Reading::cfcheckpt_at))]
fn view_cfcheckpt<'a>(cut: &mut Cut<'a>) -> Result<View<'a>, Cause>
    ensures { Reads msg_of (cfcheckpt_at cut.old) result cut.new }
{
    let filter = cut.u8()?;
    let stop = hash_of(cut)?;
    let headers = view_filter_hashes(cut)?;
    Ok(View::Cfcheckpt {
        filter,
        stop,
        headers,
    })
}
