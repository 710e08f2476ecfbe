// The texts of `--help` and `--version`.
ghost use Rattle.std.specs.Prelude.{◌≡◌};
ghost use Rattle.glk_run.specs.Help.{help_text, version_text};

/// The text of `--version`.
pub fn version() -> &'static [u8]
    ensures { result.now ≡ version_text }
{
    b"golink 0.1.0 for objects of Go 1.20 to 1.22, linux/amd64\n"
}

/// The text of `--help`.
#[tactic(auto, unfolding(crate::specs::Help::help_text))]
pub fn help() -> &'static [u8]
    ensures { result.now ≡ help_text }
{
    b"golink links compiled Go packages into a static executable for linux/amd64.\n\
\n\
usage: golink COMMAND [FLAGS] [FILE]\n\
\n\
\x20 link       links a package file with its imports into an image\n\
\x20     -o FILE          the image to write (default a.out)\n\
\x20     -importcfg FILE  the file of each imported package (see the example)\n\
\x20     -numbers FILE    the numbers of relocation kinds (a line: KIND NUMBER)\n\
\x20     -builtin FILE    the builtin symbols (a line: NAME ABI; not built yet)\n\
\x20     -E NAME          the entry symbol (default _rt0_amd64_linux)\n\
\x20     -s               omit the symbol table (no image has one yet)\n\
\x20     -w               omit DWARF (no image has it)\n\
\x20     -workers N       number of threads, from 1 to 64 (default 4; one works yet)\n\
\x20     -buildmode MODE  accepted for `go build`: exe is the only mode\n\
\x20     -buildid ID      accepted for `go build`, ignored\n\
\x20     -extld LINKER    accepted for `go build`, ignored\n\
\x20     example: echo packagefile util=util.a >importcfg\n\
\x20              golink link -o hello -importcfg importcfg main.a\n\
\x20 mkobj      makes a package archive of an object in text form\n\
\x20     -o FILE          the archive to write (default out.a)\n\
\x20     example: golink mkobj -o main.a main.txt\n\
\x20 dump       prints the objects of a package file in text form\n\
\x20     example: golink dump main.a\n\
\x20 nm         lists the symbols of an image\n\
\x20     -n               by address, as -sort address\n\
\x20     -size            with sizes\n\
\x20     -sort ORDER      address, name, none or size (default name)\n\
\x20     example: golink nm hello\n\
\x20 addr2line  prints function and line of each address on standard input\n\
\x20     -i               with inlined frames\n\
\x20     example: echo 401000 | golink addr2line hello\n\
\x20 gen        makes random packages, links them and prints a summary (not built yet)\n\
\x20     -seed N          random seed (default 0)\n\
\x20     -n N             number of functions, from 1 to 200000 (default 1)\n\
\x20     -workers N       number of threads, from 1 to 64 (default 4)\n\
\x20     example: golink gen -seed 7 -n 20000\n\
\n\
Flags are spelled as in Go's tools: -f, --f, -f=x, -f x; -- ends them, and of\n\
those given twice the last counts. --help and --version are the first word.\n\
\n\
exit status: 0 done, 1 refused, 2 faulty command line, 3 out of memory\n"
}
