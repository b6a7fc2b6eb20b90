// What a host in C or C++ calls, under the names of host/c/rev.h: the listing and the dump of an event file, the writers of its records,
// and the reader and the writer of a parameter. Each is the function of that name of `files` or of `peers`, with its clauses once more:
// a crate is a library or an archive, and an archive exports what is its own alone.
#![tactic(auto)]

ghost use Rattle.std.specs.Prelude.{◌≡◌};
ghost use Rattle.rows.specs.Telephone.{same_number};
ghost use Rattle.rows.specs.declared.Event.TheVariants.{Opening, Ask, FromAccess, Expiry, Time};
ghost use Rattle.wire.specs.Parameters.{parameter_of};
ghost use Rattle.files.specs.Bodies.{plain_at};
ghost use Rattle.files.specs.Dump.{dump_of};
ghost use Rattle.files.specs.Fit.{answers, leaves};
ghost use Rattle.files.specs.Listing.{listing_of};
ghost use Rattle.files.specs.Write.{written_of, left_of, gives_back, slot_gives, slot_leaves, number_with, message_with};
ghost use Rattle.peers.specs.Entries.{read_gives, read_leaves, identifier_at, record_at, write_gives, write_leaves};

#[unsafe(no_mangle)]
pub extern "C" fn rev_listing(file: &[u8], out: &mut [u8]) -> usize
    ensures { (result ≡ answers file.now (listing_of file.now) out.old)
        × (out.new ≡ leaves file.now (listing_of file.now) out.old) }
{
    files::rev_listing(file, out)
}

#[unsafe(no_mangle)]
pub extern "C" fn rev_dump(file: &[u8], out: &mut [u8]) -> usize
    ensures { (result ≡ answers file.now (dump_of file.now) out.old)
        × (out.new ≡ leaves file.now (dump_of file.now) out.old) }
{
    files::rev_dump(file, out)
}

#[unsafe(no_mangle)]
pub extern "C" fn rev_write_opening(
    role: u8,
    flags: u8,
    international: bool,
    count: u8,
    value: u64,
    out: &mut [u8],
) -> u32
    ensures { (result ≡ gives_back (written_of (Opening role flags (number_with international count value)) out.old))
        × (out.new ≡ left_of (Opening role flags (number_with international count value)) out.old) }
{
    files::rev_write_opening(role, flags, international, count, value, out)
}

#[unsafe(no_mangle)]
pub extern "C" fn rev_write_request(
    request: u8,
    international: bool,
    count: u8,
    value: u64,
    out: &mut [u8],
) -> u32
    ensures { (result ≡ gives_back (written_of (Ask request (number_with international count value)) out.old))
        × (out.new ≡ left_of (Ask request (number_with international count value)) out.old) }
{
    files::rev_write_request(request, international, count, value, out)
}

#[unsafe(no_mangle)]
pub extern "C" fn rev_write_message(
    message: u8,
    cause: u8,
    component: u8,
    item: u8,
    parts: u8,
    callinginternational: bool,
    callingcount: u8,
    callingvalue: u64,
    calledinternational: bool,
    calledcount: u8,
    calledvalue: u64,
    duration: u32,
    out: &mut [u8],
) -> u32
    ensures { (result ≡ gives_back (written_of
        (message_with message cause component item parts
        (number_with callinginternational callingcount callingvalue)
        (number_with calledinternational calledcount calledvalue) duration)
        out.old))
        × (out.new ≡ left_of
        (message_with message cause component item parts
        (number_with callinginternational callingcount callingvalue)
        (number_with calledinternational calledcount calledvalue) duration)
        out.old) }
{
    files::rev_write_message(
        message,
        cause,
        component,
        item,
        parts,
        callinginternational,
        callingcount,
        callingvalue,
        calledinternational,
        calledcount,
        calledvalue,
        duration,
        out,
    )
}

#[unsafe(no_mangle)]
pub extern "C" fn rev_write_access(told: u8, error: u8, out: &mut [u8]) -> u32
    ensures { (result ≡ gives_back (written_of (FromAccess told error) out.old))
        × (out.new ≡ left_of (FromAccess told error) out.old) }
{
    files::rev_write_access(told, error, out)
}

#[unsafe(no_mangle)]
pub extern "C" fn rev_write_expiry(out: &mut [u8]) -> u32
    ensures { (result ≡ gives_back (written_of Expiry out.old)) × (out.new ≡ left_of Expiry out.old) }
{
    files::rev_write_expiry(out)
}

#[unsafe(no_mangle)]
pub extern "C" fn rev_write_time(seconds: u32, out: &mut [u8]) -> u32
    ensures { (result ≡ gives_back (written_of (Time seconds) out.old))
        × (out.new ≡ left_of (Time seconds) out.old) }
{
    files::rev_write_time(seconds, out)
}

#[unsafe(no_mangle)]
pub extern "C" fn rev_write_slot(slot: u16, inner: &[u8], out: &mut [u8]) -> u32
    ensures { (result ≡ slot_gives (plain_at inner.now 0) slot out.old)
        × (out.new ≡ slot_leaves (plain_at inner.now 0) slot out.old) }
{
    files::rev_write_slot(slot, inner, out)
}

#[unsafe(no_mangle)]
pub extern "C" fn rev_same_number(
    international: bool,
    count: u8,
    value: u64,
    otherinternational: bool,
    othercount: u8,
    othervalue: u64,
) -> bool
    ensures { result ≡ same_number (number_with international count value) (number_with otherinternational othercount othervalue) }
{
    files::rev_same_number(
        international,
        count,
        value,
        otherinternational,
        othercount,
        othervalue,
    )
}

#[unsafe(no_mangle)]
pub extern "C" fn rev_read_parameter(
    parameter: &[u8],
    message: u8,
    cause: u8,
    out: &mut [u8],
) -> u32
    ensures { (result ≡ read_gives message cause (parameter_of parameter.now) out.old)
        × (out.new ≡ read_leaves message cause (parameter_of parameter.now) out.old) }
{
    peers::rev_read_parameter(parameter, message, cause, out)
}

#[unsafe(no_mangle)]
pub extern "C" fn rev_write_parameter(entry: &[u8], out: &mut [u8]) -> u32
    ensures { (result ≡ write_gives (record_at entry.now) (identifier_at entry.now) out.old)
        × (out.new ≡ write_leaves (record_at entry.now) (identifier_at entry.now) out.old) }
{
    peers::rev_write_parameter(entry, out)
}
