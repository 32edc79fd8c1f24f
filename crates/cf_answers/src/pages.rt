//! A page of help for each command.

/// The help on `scan`.
pub const SCAN: &str = "\
NAME
    cf scan - the history of the watched scripts in a file of blocks

SYNOPSIS
    cf scan FILE WATCH

DESCRIPTION
    Checks the blocks of FILE, and prints each transaction above genesis that
    pays or spends a coin of a script of WATCH, and last the tip:
        HEIGHT TXID +RECEIVED -SPENT BALANCE
        synced HEIGHT HASH
    Amounts are in hundred millionths of a coin. BALANCE is what the scripts
    have after the transaction.

EXAMPLE
    $ cf scan data/blocks.dat data/watch.txt | tail -1
    synced 3 0687f29f13ea02af647ed385493e4f3db218b245f4fa87c9ab143b283203b206
";

/// The help on `filter`.
pub const FILTER: &str = "\
NAME
    cf filter - the basic filter of a block

SYNOPSIS
    cf filter FILE HEIGHT

DESCRIPTION
    Checks the blocks of FILE, and prints the hash of the block at HEIGHT, its
    basic filter (BIP 158) and its filter header (BIP 157). Genesis is at
    height 0. A height above the tip of FILE ends it with status 11.

EXAMPLE
    $ cf filter data/blocks.dat 3
    block 0687f29f13ea02af647ed385493e4f3db218b245f4fa87c9ab143b283203b206
    filter 0135ba40
    header e8efebe58ab2e315150cfa9fb935cc97939309fc015a1ac81cf4aca9383353a8
";

/// The help on `replay`.
pub const REPLAY: &str = "\
NAME
    cf replay - runs the client over a recorded session

SYNOPSIS
    cf replay [--follow] [--trace] WATCH SESSION

DESCRIPTION
    Runs the client of sync on what SESSION says that came from the peers, and
    prints the history of the scripts of WATCH and the tip. SESSION is a text
    file of dials and deliveries, as sync --record writes it. It opens no
    connection.

OPTIONS
    --follow
        Goes on as follow does; the histories come after the trace.
    --trace
        Prints first what was sent to peer P, as `> P COMMAND`, and which peer
        was closed, as `x P CAUSE`.

EXAMPLE
    $ cf replay --trace data/watch.txt data/session.txt | head -2
    > 1 version
    > 1 verack
";

/// The help on `sync`.
pub const SYNC: &str = "\
NAME
    cf sync - the history of the watched scripts, from peers

SYNOPSIS
    cf sync [--turns N] [--workers N] [--record FILE] WATCH PEER..

DESCRIPTION
    Dials 1 to 8 peers, each HOST:PORT, and follows their longest chain of
    valid headers. It fetches the blocks on whose filters the peers differ, or
    whose filter may hold a script of WATCH. It prints their history and the
    tip, and ends once no request is open. One honest peer is enough.

OPTIONS
    --turns N
        Takes at most N deliveries, from 1 to 10000000 (else 10000000).
    --workers N
        Judges filters in N threads, from 1 to 64 (else 4).
    --record FILE
        Writes the dials and what came from the peers to FILE, as the lines of
        a session for replay.

EXAMPLE
    A node of Bitcoin Core, started with -regtest -blockfilterindex=1
    -peerblockfilters=1:
        cf sync watch.txt 127.0.0.1:18444
";

/// The help on `follow`.
pub const FOLLOW: &str = "\
NAME
    cf follow - the history of the watched scripts, kept up to date

SYNOPSIS
    cf follow [--turns N] [--workers N] [--record FILE] [--redial SECONDS]
              WATCH PEER..

DESCRIPTION
    Does as sync does, and goes on where that would end: it asks for the blocks
    that its peers announce, and prints the history and the tip anew where
    either has changed. It runs until it is stopped, or no peer is left.

OPTIONS
    --turns N
        Takes at most N deliveries, from 1 to 10000000 (else 10000000).
    --workers N
        Judges filters in N threads, from 1 to 64 (else 4).
    --record FILE
        Writes the dials and what came from the peers to FILE at the end, as
        the lines of a session for replay.
    --redial SECONDS
        Where no peer is left, waits so long, from 1 to 3600, and dials all
        anew, until it is stopped. It doesn't go with --record.

EXAMPLE
    A node of Bitcoin Core, started with -regtest -blockfilterindex=1
    -peerblockfilters=1:
        cf follow --redial 5 watch.txt 127.0.0.1:18444
";

/// The help on `serve`.
pub const SERVE: &str = "\
NAME
    cf serve - serves blocks and their filters

SYNOPSIS
    cf serve [--grow [--grow-bytes N] [--keep]] [--endless | --connections N]
             [--at-once N] [--budget N] FILE ADDRESS

DESCRIPTION
    Checks the blocks of FILE, and serves them and their filters at ADDRESS,
    HOST:PORT. Port 0 is any that is free. Standard error says where it
    listens, the tip, and how each connection ended.

OPTIONS
    --connections N
        Ends once N connections were served, from 1 to 1000000 (else 1000000).
    --endless
        Serves without an end by the number of connections.
    --at-once N
        Serves N connections at a time, from 1 to 1000000 (else 125).
    --budget N
        Holds N megabytes of large messages, from 1 to 1000000 (else 256).
    --grow
        Takes the blocks that the connections bring, and announces them. FILE
        stays as it is, but with --keep.
    --grow-bytes N
        With --grow: takes N bytes of blocks at most, from 1 to 4294967295
        (else 1073741824).
    --keep
        With --grow: puts each block that joins behind those of FILE, before
        its joining is told. A record that a crash has cut off is removed at
        the next start.

EXAMPLE
    $ cf serve --connections 1 data/blocks.dat 127.0.0.1:28445
    cf: listening on 127.0.0.1:28445
    cf: serving 3 0687f29f13ea02af647ed385493e4f3db218b245f4fa87c9ab143b283203b206
    cf: connection 1: from 127.0.0.1:50514
    cf: connection 1: the peer has closed it
";

/// The help on `address`.
pub const ADDRESS: &str = "\
NAME
    cf address - the script of an address, or the address of a script

SYNOPSIS
    cf address TEXT

DESCRIPTION
    Prints the script of an address of regtest (BIP 173, BIP 350), in
    hexadecimal, or the address of a script in hexadecimal. A TEXT that begins
    with bcrt1 is to be an address. Where it is neither the status is 13.

EXAMPLE
    $ cf address 0014751e76e8199196d454941c45d1b3a323f1433bd6
    bcrt1qw508d6qejxtdg4y5r3zarvary0c5xw7kygt080
";

/// The help on `prove`.
pub const PROVE: &str = "\
NAME
    cf prove - a proof that a transaction is in its block

SYNOPSIS
    cf prove FILE TXID

DESCRIPTION
    Checks the blocks of FILE, and prints the first transaction above genesis
    whose hash is TXID, and a proof that it is in its block (BIP 37):
        tx HEX
        proof HEX
    Where no block has it the status is 12.

EXAMPLE
    $ cf prove data/blocks.dat \\
        72c9f9a6d21d37da3363854f04dd2a7294bcfdbec0b806dc789bf7c9d3aab8a7 \\
        > proof.txt
    $ cf check proof.txt data/blocks.dat | cut -d ' ' -f 4-
    at 2
";

/// The help on `check`.
pub const CHECK: &str = "\
NAME
    cf check - checks a proof that a transaction is in its block

SYNOPSIS
    cf check [--witness] FILE [BLOCKS]

DESCRIPTION
    Checks a proof that prove has printed to FILE, and prints the block and
    the transaction:
        in BLOCKHASH TXID
    With BLOCKS, a file of blocks, the height of the block in its chain
    follows, as `at HEIGHT`. Where the chain hasn't got it the status is 12.
    Without BLOCKS, whether the block is in a chain is for you to know.

OPTIONS
    --witness
        The transaction may have its witnesses, as getrawtransaction of
        Bitcoin Core gives it.

EXAMPLE
    $ cf prove data/blocks.dat \\
        52dc34540c01bedd2ef906ceba2115a78116abefd26c4e26c1ff227fd7cecf47 \\
        > proof.txt
    $ cf check proof.txt data/blocks.dat | cut -d ' ' -f 4-
    at 1
";

/// The help on `make`.
pub const MAKE: &str = "\
NAME
    cf make - writes the blocks of a made chain

SYNOPSIS
    cf make [--witness] SEED BLOCKS FILE

DESCRIPTION
    Writes the blocks of a made chain to FILE, from height 1 to BLOCKS, 1 to
    500000. SEED, 0 to 4294967295, says which chain. FILE is written whole or
    not at all. It prints nothing.

OPTIONS
    --witness
        Gives the first transaction of each block a witness, as nodes do.

EXAMPLE
    $ cf make 7 3 made.dat
    $ cmp made.dat data/blocks.dat
";

/// The help on `demo`.
pub const DEMO: &str = "\
NAME
    cf demo - the client beside three simulated peers

SYNOPSIS
    cf demo SEED BLOCKS

DESCRIPTION
    Runs the client on three simulated peers. One omits scripts from its
    filters, one shows a longer chain and never answers, and one is honest and
    serves a made chain of BLOCKS, 1 to 499998, blocks. SEED, 0 to 4294967295,
    says which chain.

EXAMPLE
    $ cf demo 7 500
    blocks 500
    peers 3
    entries 126
    balance 312000000000
    fetched 116
    closed 2
    tip 679103639f3cfecc66abf2a372afeef9a7c7f0277515a23126d18a2b06a7bbfb
";
