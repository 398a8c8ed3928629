//! What is said of a list that is followed.
ghost use Rattle.std.specs.Prelude.{◌≡◌, ◌++◌};
ghost use Rattle.vault_wire.specs.Watching.{inner_of, is_stopped};
ghost use Rattle.vault_live.specs.News.{at_text, line_of, sweep_text};
ghost use Rattle.vault_live.specs.Told.{Tells};

use crate::subject::Subject;
use crate::told::{tell, tell_bytes};
use itoa::Buffer;
use std::io::Write;
use vault_core::moment::Moment;
use vault_core::name::MerchantId;
use vault_wire::watched::Watched;

/// What came of a list between two connections, and when.
#[derive(Clone, Copy, PartialEq, Eq, Drop)]
pub enum News {
    /// Nothing was done, and nothing is said.
    Nothing,
    /// So many rights were given, and so many withdrawn.
    Changed(usize, usize, Moment),
    /// So many merchants were set.
    Set(usize, Moment),
    /// The list of rights, or of merchants, is refused by this number.
    Refused(Subject, u8, Moment),
    /// The list of rights, or of merchants, can't be read.
    Unread(Subject, Moment),
    /// A new list of rights, or of merchants, isn't whole.
    Unfinished(Subject, Moment),
    /// So many dead tokens of a merchant were purged.
    Purged(MerchantId, usize, Moment),
    /// A merchant isn't swept: that is refused by this number.
    Unswept(MerchantId, u8, Moment),
    /// A merchant isn't swept, since its moment is far behind the clock's.
    Waits(MerchantId, Moment),
}

/// Writes a line of a merchant's sweep: what is said of it, and when. A failure of the writer isn't told.
fn write_sweep<W: Write>(
    output: &mut Watched<W>,
    merchant: MerchantId,
    said: &str,
    digits: &str,
    now: Moment,
)
    // the line went out; or a beginning of it and not all, and the writer has failed
    ensures { Tells (W.contents (inner_of output.old)) (W.contents (inner_of output.new))
        (is_stopped output.new) (sweep_text merchant ++ said.now ++ digits.now ++ at_text now) }
{
    let mut seconds = Buffer::new();
    tell_bytes(
        output,
        &[
            b"sweep of ",
            merchant.bytes(),
            said.as_bytes(),
            digits.as_bytes(),
            b" at ",
            seconds.format(now.seconds()).as_bytes(),
            b"\n",
        ],
    );
}

/// Writes the line that says what came of a list. A failure of the writer isn't told.
fn write_line<W: Write>(output: &mut Watched<W>, news: News)
    // the line went out; or a beginning of it and not all, and the writer has failed
    ensures { Tells (W.contents (inner_of output.old)) (W.contents (inner_of output.new))
        (is_stopped output.new) (line_of news) }
{
    let mut first = Buffer::new();
    let mut second = Buffer::new();
    let mut third = Buffer::new();
    match news {
        News::Nothing => {}
        News::Changed(given, withdrawn, now) => tell(
            output,
            &[
                "rights granted ",
                first.format(given),
                " withdrawn ",
                second.format(withdrawn),
                " at ",
                third.format(now.seconds()),
                "\n",
            ],
        ),
        News::Set(count, now) => tell(
            output,
            &[
                "merchants set ",
                first.format(count),
                " at ",
                second.format(now.seconds()),
                "\n",
            ],
        ),
        News::Refused(about, number, now) => tell(
            output,
            &[
                about.name(),
                " refused ",
                first.format(number),
                " at ",
                second.format(now.seconds()),
                "\n",
            ],
        ),
        News::Unread(about, now) => tell(
            output,
            &[
                about.name(),
                " unread at ",
                first.format(now.seconds()),
                "\n",
            ],
        ),
        News::Unfinished(about, now) => tell(
            output,
            &[
                about.name(),
                " unfinished at ",
                first.format(now.seconds()),
                "\n",
            ],
        ),
        News::Purged(merchant, count, now) => {
            write_sweep(output, merchant, " purged ", first.format(count), now)
        }
        News::Unswept(merchant, number, now) => {
            write_sweep(output, merchant, " refused ", first.format(number), now)
        }
        News::Waits(merchant, now) => write_sweep(output, merchant, " waits", "", now),
    }
}

/// Says what came of a list, where something did, and hands it on. A failure of the writer isn't told.
pub fn say<W: Write>(output: &mut Watched<W>, news: News)
    // the line went out; or a beginning of it and not all, and the writer has failed
    ensures said { Tells (W.contents (inner_of output.old)) (W.contents (inner_of output.new))
        (is_stopped output.new) (line_of news) }
    // where there is nothing to say, nothing goes out
    ensures quiet { news ≡ News.Nothing → output.new ≡ output.old }
{
    if matches!(news, News::Nothing) {
        return;
    }
    write_line(output, news);
    let _ = output.flush();
}
