// The page whole.
ghost use Rattle.std.specs.Prelude.{[], ◌∷◌, ◌++◌, ◌≡◌, ◌+◌, ◌%◌, ◌^◌, ◌<◌, ◌≤◌, leb, length};
ghost use Rattle.mesh.specs.Page.{line_feed, mode_word, head_line, total, foot_line};
ghost use Rattle.header.specs.Headers.{header_of};
ghost use Rattle.mesh.specs.Call.{writing};
ghost use Rattle.table.specs.Plain.{Sized};
ghost use Rattle.lines.specs.Puts.{Put};
ghost use Rattle.lines.specs.Sheets.{HasRoom, PutOn};
ghost use Rattle.answer.specs.OutputLists.{wrote_of};
ghost use Rattle.leaves.specs.LeavesFrom.{leaves_from};
ghost use Rattle.page.specs.PageRows.{row_out};
ghost use Rattle.page.specs.WholePage.{body, whole};

use answer::{Refusal, refuse_if};
use header::{Header, is_ring};
use leaves::{Found, find_leaves};
use lines::listed::Leaves;
use lines::numerals::digits;
use lines::sheets::Sheet;

// No last line is longer.
const LONGEST_FOOT: usize = 52;

// Puts the word of the mode, and ends the line.
fn put_mode(sheet: &mut Sheet, header: Header)
    requires { HasRoom sheet.old 5 }
    ensures { PutOn sheet.old (mode_word (header_of header).grid ++ line_feed ∷ []) sheet.new }
{
    if is_ring(header) {
        sheet.text(b"ring\n");
    } else {
        sheet.text(b"open\n");
    }
}

// Puts the first line.
fn put_head(sheet: &mut Sheet, header: Header)
    requires { HasRoom sheet.old (length (head_line (header_of header))) }
    ensures { PutOn sheet.old (head_line (header_of header)) sheet.new }
{
    sheet.text(b"map ");
    sheet.number(header.columns);
    sheet.number(header.rows);
    sheet.number(header.mark as u32);
    put_mode(sheet, header);
}

// Puts the last line.
fn put_foot(sheet: &mut Sheet, leaves: u32, sum: u32)
    requires { HasRoom sheet.old (length (foot_line leaves sum)) }
    ensures { PutOn sheet.old (foot_line leaves sum) sheet.new }
{
    sheet.text(b"cells ");
    sheet.number(leaves);
    sheet.text(b"sum ");
    sheet.decimal(sum);
    sheet.byte(b'\n');
}

// The page of listed leaves, below the first line of a header.
#[derive(Clone, Copy)]
struct Page<'a> {
    header: Header,
    leaves: Leaves<'a>,
}

impl Page<'_> {
    // The length of all lines but the last.
    fn body_size(&self) -> usize
        ensures { (result ≤ 258090) × (result ≡ length (body self.now)) }
    {
        let header = self.header;
        let head = digits(header.columns) + digits(header.rows) + digits(header.mark as u32) + 12;
        head + self.leaves.lines_size()
    }

    // The sum of the bytes of all lines but the last.
    fn body_sum(&self) -> u32
        ensures { result ≡ total (body self.now) % 2 ^ 32 }
    {
        let mut line = [0u8; 72];
        let mut head = Sheet {
            out: &mut line,
            at: 0,
        };
        put_head(&mut head, self.header);
        self.leaves.lines_sum(head.sum())
    }

    // Whether the page has room. Its sum has to be known only where the length of the last line decides.
    fn fits(&self, room: usize) -> bool
        ensures { result ≡ leb (length (whole self.now)) room }
    {
        let size = self.body_size();
        if size + LONGEST_FOOT <= room {
            return true;
        }
        let sum = self.body_sum();
        size + digits(self.leaves.rows.len() as u32) + digits(sum) + 12 <= room
    }

    // Puts the page, and answers its length.
    fn put(&self, out: &mut [u8]) -> usize
        requires { length (whole self.now) ≤ length out.old }
        ensures { Put out.old 0 (whole self.now) out.new result }
    {
        let mut sheet = Sheet { out, at: 0 };
        put_head(&mut sheet, self.header);
        self.leaves.put_lines(&mut sheet);
        let sum = sheet.sum();
        put_foot(&mut sheet, self.leaves.rows.len() as u32, sum);
        sheet.at
    }

    // Writes the page, if the output is long enough.
    fn write(&self, out: &mut [u8]) -> Result<usize, Refusal>
        ensures { wrote_of result out.new ≡ writing (whole self.now) out.old }
    {
        refuse_if(!self.fits(out.len()), Refusal::TooShort)?;
        Ok(self.put(out))
    }
}

// Writes the page of the leaves of a table, if the output is long enough.
pub fn write_page(
    header: Header,
    t: &[i32],
    v: &[f64],
    cap: usize,
    d: u32,
    out: &mut [u8],
) -> Result<usize, Refusal>
    requires { Sized t.now cap × (1 ≤ cap) × (cap < length v.now) × (length (leaves_from t.now cap (d + 12) 1) ≤ 4096) }
    ensures { wrote_of result out.new ≡ row_out (header_of header) t.now v.now cap d out.old }
{
    let mut rows = [0u16; 4096];
    let mut found = Found {
        rows: &mut rows,
        count: 0,
    };
    find_leaves(t, cap, d as usize + 12, 1, &mut found);
    let count = found.count;
    let leaves = Leaves {
        t,
        v,
        cap,
        rows: &found.rows[..count],
    };
    let page = Page { header, leaves };
    page.write(out)
}
