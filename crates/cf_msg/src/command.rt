//! The commands of the messages that are looked into.
ghost use Rattle.std.specs.Prelude.{◌≡◌};
ghost use Rattle.cf_msg.specs.Command.{kind_of as kind_of_command, version_command, verack_command, ping_command, pong_command, getheaders_command, headers_command, getdata_command, inv_command, block_command, getcfilters_command, cfilter_command, getcfheaders_command, cfheaders_command, getcfcheckpt_command, cfcheckpt_command};

pub(crate) const VERSION: [u8; 12] = *b"version\0\0\0\0\0";

pub(crate) const VERACK: [u8; 12] = *b"verack\0\0\0\0\0\0";

pub(crate) const PING: [u8; 12] = *b"ping\0\0\0\0\0\0\0\0";

pub(crate) const PONG: [u8; 12] = *b"pong\0\0\0\0\0\0\0\0";

pub(crate) const GETHEADERS: [u8; 12] = *b"getheaders\0\0";

pub(crate) const HEADERS: [u8; 12] = *b"headers\0\0\0\0\0";

pub(crate) const GETDATA: [u8; 12] = *b"getdata\0\0\0\0\0";

pub(crate) const INV: [u8; 12] = *b"inv\0\0\0\0\0\0\0\0\0";

pub(crate) const BLOCK: [u8; 12] = *b"block\0\0\0\0\0\0\0";

pub(crate) const GETCFILTERS: [u8; 12] = *b"getcfilters\0";

pub(crate) const CFILTER: [u8; 12] = *b"cfilter\0\0\0\0\0";

pub(crate) const GETCFHEADERS: [u8; 12] = *b"getcfheaders";

pub(crate) const CFHEADERS: [u8; 12] = *b"cfheaders\0\0\0";

pub(crate) const GETCFCHECKPT: [u8; 12] = *b"getcfcheckpt";

pub(crate) const CFCHECKPT: [u8; 12] = *b"cfcheckpt\0\0\0";

/// What a command announces.
#[derive(Clone, Copy, Debug, PartialEq, Eq)]
pub enum Kind {
    Version,
    Verack,
    Ping,
    Pong,
    GetHeaders,
    Headers,
    GetData,
    Inv,
    Block,
    GetCfilters,
    Cfilter,
    GetCfheaders,
    Cfheaders,
    GetCfcheckpt,
    Cfcheckpt,
    Other,
}

/// What this command announces.
#[tactic(auto, unfolding(crate::specs::Command::kind_of))]
pub fn kind_of(command: &[u8; 12]) -> Kind
    ensures { result ≡ kind_of_command command.now }
{
    if *command == VERSION {
        return Kind::Version;
    }
    if *command == VERACK {
        return Kind::Verack;
    }
    if *command == PING {
        return Kind::Ping;
    }
    if *command == PONG {
        return Kind::Pong;
    }
    if *command == GETHEADERS {
        return Kind::GetHeaders;
    }
    if *command == HEADERS {
        return Kind::Headers;
    }
    if *command == GETDATA {
        return Kind::GetData;
    }
    if *command == INV {
        return Kind::Inv;
    }
    if *command == BLOCK {
        return Kind::Block;
    }
    if *command == GETCFILTERS {
        return Kind::GetCfilters;
    }
    if *command == CFILTER {
        return Kind::Cfilter;
    }
    if *command == GETCFHEADERS {
        return Kind::GetCfheaders;
    }
    if *command == CFHEADERS {
        return Kind::Cfheaders;
    }
    if *command == GETCFCHECKPT {
        return Kind::GetCfcheckpt;
    }
    if *command == CFCHECKPT {
        return Kind::Cfcheckpt;
    }
    Kind::Other
}
