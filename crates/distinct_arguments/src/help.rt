//! The texts of `--help` and `--version`.
ghost use Rattle.std.specs.Prelude.{◌≡◌};
ghost use Rattle.distinct_arguments.specs.Texts.{text_of};

use crate::commands::{Command, Operator, Topic};

const VERSION: &str = "distinct 0.2.0\n";

const HELP: &str = "\
distinct: counts distinct lines approximately, in little memory, and keeps small
sketches of them, which can be united, intersected and subtracted

  distinct count access.log              prints how many distinct lines it has
  distinct sketch -o mon.theta mon.log   writes the sketch of the lines
  distinct union -o all.theta *.theta    writes the union of sketches
  distinct eval 'mon.theta & tue.theta'  prints the count of a set expression
  distinct visits access.log             prints how many lines occur how often
  distinct sum --value 3 spent.txt       prints the total of a field's numbers
  distinct similarity a.theta b.theta    prints how similar two sketches are
  distinct matrix *.theta                prints how similar each two of many are

Commands: count, sketch, union, meet, minus, show, eval, visits, sum,
similarity, matrix. distinct COMMAND --help has the options and more examples
of each, -h too; docs/use/DISTINCT.md has the rest. --version and -V print the
version.

Options may stand before and behind files, until -- ends them. A file named -
is standard input. A command that reads lines does so from there if it has no
file. -C DIR, also in front of the command, makes names relative to DIR.

Status: 0 if answered, 1 if a file cannot be read or is no sketch, an output
fails, or memory is refused, 2 for wrong arguments.
";

const COUNT: &str = "\
distinct count [OPTION..] [FILE..]: prints how many distinct lines the files have together,
exactly or estimated

Read:
  -f, --field N           use field N as a line's key, counted from 1 as in cut -f N. A line
                          without a separator is its own key, and a line of fewer fields has the
                          empty key. N may be several fields, as 1,3; names in the first line of
                          each file; or the front of one, as 1:13 for its first 13 bytes
  -d, --separator C       the byte between fields, with --field or --by; default a tab
      --csv               the files have records of CSV (RFC 4180), not lines: a field between
                          quotes may have separators, quotes and line ends in it, but none of the
                          last in a field that is used. The separator is a comma then. Not with
                          --part or --groups
      --blanks            fields are separated by one or more blanks: spaces and tabs
      --crlf              a CR at the end of a line is no part of it
      --header            pass over the first line, or record, of each file. Not with --part
      --hex               images in hexadecimal, one per line. Needs --groups
      --files0-from FILE  read the names of the files from FILE, each ended by a NUL byte
      --part I/N          read part I of N of each file's lines, I from 1 to N. A line is in the
                          part in whose range of bytes it begins; the ranges are equal. Files must
                          be regular
  -C DIR                  names of files are relative to the folder DIR

Count:
  -k, --lg-k N            keep 2^N hashes, N from 4 to 26; default 16, with a standard error of
                          0.4 percent
      --error P           keep the fewest hashes whose standard error is at most P percent, such
                          as 0.4%. P is from 0.0123 to 100. Of --lg-k and --error the last counts
      --seed N            the seed of the hashes, from 0 to 2^64 - 1; default 9001
      --seed-file FILE    read the seed from FILE, which keeps it out of the process list
      --by N              count each group of lines that have the same field N, as for --field.
                          Print a line per group, in ascending order: its name, a tab, its count
      --groups            with --hex: count the union of the images of each group. A line has the
                          name of a group, a tab and an image, as sketch and union write them. Not
                          with --by, --field, --part or --progress
      --per-file          count each file by itself. Print a line per file: its count, a tab, its
                          name; in tables and JSON the name is first. Not with --by, --groups or
                          --progress

Print:
      --sort ORDER        the order of groups: name, the default, or estimate, the greatest first
                          and equal ones by name
      --min N             print only groups whose estimate is at least N; N from 1 to 2^64 - 1
      --top N             print only the first N groups, in the order of --sort, of those that
                          --min leaves; N from 1 to 2^64 - 1
      --progress          about once a second, report on standard error how many lines and bytes
                          were read, and the estimate or the number of groups so far. Not with
                          --csv, --blanks, --crlf or --header
      --bounds[=Z]        print three numbers: the estimate, its lower and its upper bound, for
                          Z standard deviations; Z is 1, 2 or 3, default 2
      --human             print digits in groups and, of an estimate, its bounds, as in
                          about 5,012,300 (4,973,400 to 5,051,500). Not with --tsv or --json
      --tsv               print values separated by tabs, under a line of their names
      --json              print a JSON object
  -q, --quiet             print no remarks and warnings on standard error

Examples:
  distinct count -f2 -d' ' access.log                  how many values field 2 has
  distinct count --by 1 --sort estimate --top 9 a.log  the nine largest groups
  distinct count --hex --groups a.groups b.groups      the groups of both files
  distinct count --per-file *.log                      a count per file, as wc -l prints lines
";

const SKETCH: &str = "\
distinct sketch [OPTION..] [FILE..]: writes the sketch of the files' lines as an image

Read:
  -f, --field N           use field N as a line's key, counted from 1 as in cut -f N, or 1,3,
                          names in the first line of each file, or 1:13 (see count --help)
  -d, --separator C       the byte between fields, with --field, --by or --value; default a tab
      --csv               the files have records of CSV (RFC 4180), not lines: a field between
                          quotes may have separators, quotes and line ends in it, but none of the
                          last in a field that is used. The separator is a comma then. Not with
                          --part
      --blanks            fields are separated by one or more blanks: spaces and tabs
      --crlf              a CR at the end of a line is no part of it
      --header            pass over the first line, or record, of each file. Not with --part
      --value M           write an image of sums: for each key, the sum of field M (see distinct
                          sum --help). Not with --by
      --skip-invalid      with --value: skip lines without such a number, and report how many of
                          each file. Messages number the other lines alone
      --summary MODE      with --value: keep for each key the sum of its numbers, the least or the
                          greatest. MODE is sum, the default, min or max; an image does not
                          record it
      --visits            write an image of sums: for each key, the number of its lines (see
                          distinct visits --help). Not with --value or --by
      --files0-from FILE  read the names of the files from FILE, each ended by a NUL byte
      --part I/N          read part I of N of each file's lines, I from 1 to N. A line is in the
                          part in whose range of bytes it begins; the ranges are equal. Files must
                          be regular
  -C DIR                  names of files are relative to the folder DIR

Count:
  -k, --lg-k N            keep 2^N hashes, N from 4 to 26; default 12
      --error P           keep the fewest hashes whose standard error is at most P percent, such
                          as 0.4%. P is from 0.0123 to 100. Of --lg-k and --error the last counts
      --seed N            the seed of the hashes, from 0 to 2^64 - 1; default 9001
      --seed-file FILE    read the seed from FILE, which keeps it out of the process list
      --by N              with --hex: sketch each group of lines that have the same field N.
                          Write a line per group, in ascending order: its name, a tab, its image

Print:
      --progress          about once a second, report on standard error how many lines and bytes
                          were read, and the estimate or the number of groups so far; with --value
                          or --visits, the first two. Not with --csv, --blanks, --crlf,
                          --header or --skip-invalid
      --hex               write the image in hexadecimal, as one line
      --output-dir DIR    with --by: write the image of each group to DIR/GROUP.theta. DIR is
                          created if it is missing
  -o, --output FILE       write to FILE, all or nothing, instead of standard output
      --force             let the output replace a file whose lines are read
  -q, --quiet             print no remarks and warnings on standard error

Examples:
  distinct sketch -o monday.theta monday.log     the sketch of a day
  distinct sketch --by 2 --hex a.log > a.groups  a sketch per group, in lines
";

const UNION: &str = "\
distinct union [OPTION..] IMAGE..: writes the union of the sketches

Read:
      --sums              unite images of sums: the sums of a key are added. Not with --groups
      --summary MODE      with --sums: add the sums of a key, or keep the least or the greatest.
                          MODE is sum, the default, min or max; pass that of sketch: an image
                          does not record it
      --hex               read and write images in hexadecimal, one per line
      --files0-from FILE  read the names of the files from FILE, each ended by a NUL byte
  -C DIR                  names of files are relative to the folder DIR

Count:
  -k, --lg-k N            keep 2^N hashes, N from 4 to 26; default 12. Pass the same N as to
                          sketch: an image does not record it
      --seed N            the seed of the images, from 0 to 2^64 - 1; default 9001
      --seed-file FILE    read the seed from FILE, which keeps it out of the process list
      --groups            with --hex: unite the images of each group. A line has the name of a
                          group, a tab and an image, as sketch writes lines of groups
      --expect N          fail unless there are exactly N images; N from 1 to 2^32 - 1

Print:
  -o, --output FILE       write to FILE, all or nothing, instead of standard output
  -q, --quiet             print no remarks and warnings on standard error

Examples:
  distinct union -o week.theta *.theta             the sketch of all days
  distinct union --hex --groups a.groups b.groups  each group of both files
";

const MEET: &str = "\
distinct meet [OPTION..] IMAGE..: writes the intersection of the sketches: the lines that all of
them saw

Read:
      --hex               read and write images in hexadecimal, one per line
      --files0-from FILE  read the names of the files from FILE, each ended by a NUL byte
  -C DIR                  names of files are relative to the folder DIR

Count:
      --seed N            the seed of the images, from 0 to 2^64 - 1; default 9001
      --seed-file FILE    read the seed from FILE, which keeps it out of the process list
      --groups            with --hex: write the intersection for each group that all files have. A
                          line has the name of a group, a tab and an image, as sketch writes lines
                          of groups; images of a group in one file are united first
      --expect N          fail unless there are exactly N images; N from 1 to 2^32 - 1

Print:
  -o, --output FILE       write to FILE, all or nothing, instead of standard output
  -q, --quiet             print no remarks and warnings on standard error

Examples:
  distinct meet -o both.theta mon.theta tue.theta      the lines of both days
  distinct meet mon.theta tue.theta | distinct show -  how many these are
  distinct meet --hex --groups mon.groups tue.groups   those of each group
";

const MINUS: &str = "\
distinct minus [OPTION..] IMAGE IMAGE: writes the difference of two sketches: the lines that the
first saw and the second did not

Read:
      --hex               read and write images in hexadecimal, one per line
  -C DIR                  names of files are relative to the folder DIR

Count:
      --seed N            the seed of the images, from 0 to 2^64 - 1; default 9001
      --seed-file FILE    read the seed from FILE, which keeps it out of the process list
      --groups            with --hex: write the difference for each group of the first file. A
                          line has the name of a group, a tab and an image, as sketch writes lines
                          of groups; images of a group in one file are united first

Print:
  -o, --output FILE       write to FILE, all or nothing, instead of standard output
  -q, --quiet             print no remarks and warnings on standard error

Examples:
  distinct minus -o new.theta tue.theta mon.theta       the lines that are new on Tuesday
  distinct minus tue.theta mon.theta | distinct show -  how many these are
  distinct minus --hex --groups tue.groups mon.groups   those of each group
";

const SHOW: &str = "\
distinct show [OPTION..] IMAGE..: prints one line per image: how many distinct lines it saw,
exactly or estimated, how many hashes it retains, and its theta

  Images of other seeds are shown, too, with a warning. What is no image, or can't be read, is
  passed over: its message is printed, and the status is 1.

Read:
      --hex               images in hexadecimal, one per line
      --files0-from FILE  read the names of the files from FILE, each ended by a NUL byte
  -C DIR                  names of files are relative to the folder DIR

Count:
      --seed N            the seed of the images, from 0 to 2^64 - 1; default 9001
      --seed-file FILE    read the seed from FILE, which keeps it out of the process list
      --groups            with --hex: print a line per group, on the union of its images. A line
                          has the name of a group, a tab and an image, as sketch writes lines of
                          groups

Print:
      --bounds=Z          the bounds of an estimate are for Z standard deviations; Z is 1, 2 or
                          3, default 2
      --tsv               print values separated by tabs, under a line of their names
      --json              print a JSON object per image, one per line
  -q, --quiet             print no remarks and warnings on standard error

Examples:
  distinct show *.theta                         a line per sketch
  distinct show --json --bounds=3 monday.theta  with wide bounds, for a program
  distinct show --hex --groups a.groups         a line per group
";

const EVAL: &str = "\
distinct eval [OPTION..] EXPRESSION: prints one line on a set expression over images: how many
distinct lines it has, exactly or estimated, how many hashes it retains, and its theta

  EXPRESSION is one argument, in quotes, such as 'mon.theta + tue.theta - wed.theta'. Its names
  are those of files. + and | are the union, & is the intersection, and - as a word of its own
  is the difference. & binds tighter than the others, which bind alike, from the left;
  parentheses group. Put a name between two \" if it has a blank, a tab, an LF or one of ( ) & +
  |, or is - alone.

Read:
  -f, --field N           with --keys: use field N as a line's key, counted from 1 as in cut -f
                          N, or 1,3, names in the first line of each file, or 1:13
  -d, --separator C       the byte between fields, with --field; default a tab
      --csv               with --keys: the files have records of CSV (see count --help)
      --blanks            with --keys: fields are separated by one or more blanks
      --crlf              with --keys: a CR at the end of a line is no part of it
      --header            with --keys: pass over the first line, or record, of each file
      --keys              the files have lines, not images: sketch each with 2^N hashes
      --sums              read images of sums and print the total; if keys were dropped, an
                          estimate with bounds. + and & add the sums of a key, - keeps the sums
                          on its left. Not with --keys
      --summary MODE      with --sums: + and & add the sums of a key, or keep the least or the
                          greatest. MODE is sum, the default, min or max; pass that of sketch.
                          The total adds the sums that the keys have then
      --hex               read and write images in hexadecimal, one line per file; with --groups
                          any number of lines
  -C DIR                  names of files are relative to the folder DIR

Count:
  -k, --lg-k N            keep 2^N hashes of a union, N from 4 to 26; default 12
      --seed N            the seed of the hashes, from 0 to 2^64 - 1; default 9001
      --seed-file FILE    read the seed from FILE, which keeps it out of the process list
      --groups            with --hex: evaluate the expression for each group that any file has.
                          Print a line per group, in ascending order: its name, a tab, its count,
                          which is 0 if the result is empty. A line of a file has the name of a
                          group, a tab and an image, as sketch writes lines of groups; images of a
                          group in one file are united first, and a group that a file lacks is
                          empty there. Not with --keys or --sums

Print:
      --sort ORDER        with --groups: the order of groups: name, the default, or estimate,
                          the greatest first and equal ones by name
      --min N             with --groups: print only groups whose estimate is at least N; N from 1
                          to 2^64 - 1
      --top N             with --groups: print only the first N groups, in the order of --sort, of
                          those that --min leaves; N from 1 to 2^64 - 1
      --progress          with --keys: about once a second, report on standard error how many
                          lines and bytes were read of all files, and the estimate of the one
                          that is being read. Not with --csv, --blanks, --crlf or --header
      --bounds=Z          the bounds of an estimate are for Z standard deviations; Z is 1, 2 or
                          3, default 2. With --groups they are printed behind it
      --human             with --groups: print digits in groups of three and, of an estimate, its
                          bounds (see count --help). Not with --tsv or --json
      --tsv               print values separated by tabs, under a line of their names
      --json              print a JSON object
  -o, --output FILE       write the image of the result to FILE, all or nothing, and print
                          nothing; with --groups a line per group, as meet writes them
      --force             let the output replace a file whose lines are read
  -q, --quiet             print no remarks and warnings on standard error

Examples:
  distinct eval '(mon.theta + tue.theta) & shop.theta'    a count of an expression
  distinct eval --keys 'new.txt - old.txt'                lines that are in one file alone
  distinct eval --hex --groups 'mon.groups - tue.groups'  a count for each group
";

const VISITS: &str = "\
distinct visits [OPTION..] [FILE..]: prints how many distinct lines occur once, twice, 3 to 4
times, 5 to 8 times and so on, a line for each range up to that of the most frequent line
retained

Read:
  -f, --field N           use field N as a line's key, counted from 1 as in cut -f N, or 1,3,
                          names in the first line of each file, or 1:13 (see count --help)
  -d, --separator C       the byte between fields, with --field; default a tab
      --csv               the files have records of CSV (RFC 4180), not lines: a field between
                          quotes may have separators, quotes and line ends in it, but none of the
                          last in a field that is used. The separator is a comma then. Not with
                          --part or --sums
      --blanks            fields are separated by one or more blanks: spaces and tabs
      --crlf              a CR at the end of a line is no part of it
      --header            pass over the first line, or record, of each file. Not with --part
      --sums              read images of sums, at least one, as sketch writes them of visits,
                          and count the lines of all. Pass the same --lg-k as to sketch, --field
                          to sketch only
      --hex               with --sums: images in hexadecimal, one per line
      --files0-from FILE  read the names of the files from FILE, each ended by a NUL byte
      --part I/N          read part I of N of each file's lines, I from 1 to N. A line is in the
                          part in whose range of bytes it begins; the ranges are equal. Files must
                          be regular
  -C DIR                  names of files are relative to the folder DIR

Count:
  -k, --lg-k N            keep 2^N hashes, N from 4 to 26; default 16. Up to 2^N distinct lines
                          the numbers are exact, beyond that they are estimates
      --error P           keep the fewest hashes whose standard error is at most P percent, such
                          as 0.4%. P is from 0.0123 to 100. Of --lg-k and --error the last counts
      --seed N            the seed of the hashes, from 0 to 2^64 - 1; default 9001
      --seed-file FILE    read the seed from FILE, which keeps it out of the process list

Print:
      --progress          about once a second, report the lines and bytes read on standard error.
                          Not with --csv, --blanks, --crlf or --header
      --bounds[=Z]        print bounds of each number too, for Z standard deviations; Z is 1, 2
                          or 3, default 2
      --tsv               print values separated by tabs, under a line of their names
      --json              print a JSON object per range, each on a line
  -q, --quiet             print no remarks and warnings on standard error

Examples:
  distinct visits -f3 access.log             how many users came once, twice, ...
  distinct visits --sums --lg-k 12 *.visits  the same, of images of several days
";

const SUM: &str = "\
distinct sum --value M [OPTION..] [FILE..]: prints the exact total of the numbers in field M of
all lines, or of each group of lines; with --tsv and --json also how many distinct keys all have

Read:
  -f, --field N           use field N as a line's key, counted from 1 as in cut -f N, or 1,3,
                          names in the first line of each file, or 1:13 (see count --help);
                          default the line. Not with --by
  -d, --separator C       the byte between fields; default a tab
      --csv               the files have records of CSV (RFC 4180), not lines: a field between
                          quotes may have separators, quotes and line ends in it, but none of the
                          last in a field that is used. The separator is a comma then. Not with
                          --part
      --blanks            fields are separated by one or more blanks: spaces and tabs
      --crlf              a CR at the end of a line is no part of it
      --header            pass over the first line, or record, of each file. Not with --part
      --value M           add up field M, counted from 1 as in cut -f M, or the one of this name
                          in the first line of each file: decimal digits only, below 2^64. A
                          line without such a number is an error
      --skip-invalid      skip lines without such a number, and report how many of each file.
                          Messages number the other lines alone
      --files0-from FILE  read the names of the files from FILE, each ended by a NUL byte
      --part I/N          read part I of N of each file's lines, I from 1 to N. A line is in the
                          part in whose range of bytes it begins; the ranges are equal. Files must
                          be regular
  -C DIR                  names of files are relative to the folder DIR

Count:
  -k, --lg-k N            keep 2^N hashes, N from 4 to 26; default 12
      --error P           keep the fewest hashes whose standard error is at most P percent, such
                          as 0.4%. P is from 0.0123 to 100. Of --lg-k and --error the last counts
      --seed N            the seed of the hashes, from 0 to 2^64 - 1; default 9001
      --seed-file FILE    read the seed from FILE, which keeps it out of the process list
      --by N              add up each group of lines that have the same field N, as for --field.
                          Print a line per group, in ascending order: its name, a tab, its total.
                          Keys are not counted then: --lg-k, --error and --seed change nothing

Print:
      --progress          about once a second, report the lines and bytes read on standard error.
                          Not with --by, --csv, --blanks, --crlf, --header or --skip-invalid
      --sort ORDER        with --by, the order of groups: name, the default, or total, the
                          greatest first and equal ones by name
      --min N             with --by, print only groups whose total is at least N; N from 1 to
                          2^64 - 1
      --top N             with --by, print only the first N groups, in the order of --sort, of
                          those that --min leaves; N from 1 to 2^64 - 1
      --tsv               print values separated by tabs, under a line of their names
      --json              print a JSON object, with --by one per group, each on a line
  -q, --quiet             print no remarks and warnings on standard error

Examples:
  distinct sum -f2 --value 3 spent.txt          what all users spent together
  distinct sum --by 2 --value 3 spent.txt       what each user spent
  distinct sum --value 2 -d, --json prices.csv  of a file with commas, as JSON
";

const SIMILARITY: &str = "\
distinct similarity [OPTION..] IMAGE IMAGE: prints how similar two sketches are: the share of the
lines that both saw among those that at least one saw (the Jaccard similarity), from 0 to 1

  The number has six decimals, rounded to the nearest. If both sketches are exact, so is it; else
  it is the share among the hashes that they retain below the lesser theta, or 0.5 if these are
  none. Two empty sketches have 1.

Read:
      --hex               images in hexadecimal, one per line
  -C DIR                  names of files are relative to the folder DIR

Count:
      --seed N            the seed of the images, from 0 to 2^64 - 1; default 9001
      --seed-file FILE    read the seed from FILE, which keeps it out of the process list

Print:
      --bounds[=Z]        print three numbers: the estimate, its lower and its upper bound, for
                          Z standard deviations; Z is 1, 2 or 3, default 2
      --tsv               print values separated by tabs, under a line of their names
      --json              print a JSON object
  -q, --quiet             print no remarks and warnings on standard error

Examples:
  distinct similarity mon.theta tue.theta         how much two days have in common
  distinct similarity --json mon.theta tue.theta  with bounds and hashes, for a program
";

const MATRIX: &str = "\
distinct matrix [OPTION..] IMAGE IMAGE..: prints a line for each two of the sketches, in the order
of the images, with tabs between: the names of both, how many lines both saw, how many the first
alone and how many the second alone, and their similarity, as distinct similarity prints it

  The numbers of lines are those that distinct eval prints of A & B, A - B and B - A: exact if
  both sketches are, else estimates from the hashes that they retain below the lesser theta. Each
  image is read once.

Read:
      --hex               images in hexadecimal, one per line. An image is named by its file and
                          the number of its line, as in day.hex:3
      --files0-from FILE  read the names of the files from FILE, each ended by a NUL byte
  -C DIR                  names of files are relative to the folder DIR

Count:
      --seed N            the seed of the images, from 0 to 2^64 - 1; default 9001
      --seed-file FILE    read the seed from FILE, which keeps it out of the process list

Print:
      --bounds[=Z]        print the similarity with its lower and its upper bound behind it, for Z
                          standard deviations; Z is 1, 2 or 3, default 2
      --tsv               print values separated by tabs, under a line of their names
      --json              print a JSON object per pair, each on a line
  -q, --quiet             print no remarks and warnings on standard error

Examples:
  distinct matrix mon.theta tue.theta wed.theta  what each two of three days have in common
  distinct matrix --json *.theta                 the same, for a program
";

/// The text on a topic.
pub fn text_of(topic: Topic) -> &'static str
    ensures { result.now ≡ text_of topic }
{
    match topic {
        Topic::Program => HELP,
        Topic::Version => VERSION,
        Topic::Help(Command::Count) => COUNT,
        Topic::Help(Command::Sketch) => SKETCH,
        Topic::Help(Command::Combine(Operator::Union)) => UNION,
        Topic::Help(Command::Combine(Operator::Meet)) => MEET,
        Topic::Help(Command::Combine(Operator::Minus)) => MINUS,
        Topic::Help(Command::Show) => SHOW,
        Topic::Help(Command::Eval) => EVAL,
        Topic::Help(Command::Visits) => VISITS,
        Topic::Help(Command::Sum) => SUM,
        Topic::Help(Command::Similarity) => SIMILARITY,
        Topic::Help(Command::Matrix) => MATRIX,
    }
}
