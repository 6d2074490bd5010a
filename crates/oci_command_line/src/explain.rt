ghost use Rattle.std.specs.Prelude.{◌≡◌, ◌∷◌, All, IfOk, IfSome};
ghost use Rattle.oci_command_line.specs.Explain.{before_space, IsAskedBy, Writes};

use serde::Serialize;
use std::alloc::{AllocError, Global};
use std::fmt::{self, Display, Formatter, Write};

/// An entry of three lines for each error number, with an empty line between two numbers: the number and its
/// name, the meaning, and the remedy. The first sentence of the meaning is also printed by itself.
const REFUSALS: &str = "\
1 BadForm
The text is not a digest: it does not have the form `algorithm:encoded`.
Write `sha256:` and 64 digits from 0 to 9 and a to f.

2 UnknownAlgorithm
The digest's algorithm is neither `sha256` nor `sha512`.
Use a digest of one of these; blobs with other digests cannot be copied.

3 BadEncoding
The part of the digest after the colon does not fit its algorithm.
Write 64 digits for `sha256` and 128 for `sha512`, from 0 to 9 and a to f; no capital letters.

4 BadSize
The size is over 9223372036854775807 bytes, the limit for a descriptor.
Check the size; no blob is this large.

10 NotJson
The manifest, or `index.json`, is not JSON. It may be cut off, not UTF-8, or nested more than 127 levels deep.
Check that it is a manifest or an index, and fetch it again from its origin.

11 NotObject
The manifest, or `index.json`, is JSON but not an object.
Check that it is a manifest or an index, and fetch it again from its origin.

12 NoConfig
The image manifest has no `config`.
Build the image again. An artifact without a config uses the empty descriptor of the OCI image specification.

13 BadList
The named member is not a list.
Build the manifest again with a tool that follows the OCI image specification.

14 BadDescriptor
The named member has an invalid descriptor at this position, counted from 0. Its `mediaType`, `digest` or `size` is missing or malformed.
Build the manifest again with a tool that follows the OCI image specification. After 73, run `ocicp explain 73`.

15 Memory
Memory ran out while a manifest was read.
Give the process more memory. `ocicp` ends with status 3.

20 NotFound
The store does not have the requested blob.
Name a blob that the store has, or copy the blob there first.

21 Corrupt
The file of the blob is gone, or its content does not match the blob's size and digest.
Run `ocicp repair FOLDER FROM` for that layout, with a layout that has the blob.

22 Device
The file of the blob could not be read, or is not a regular file.
Check the file and its permissions, and the disk.

23 Memory
Memory ran out while a blob was read.
Give the process more memory. `ocicp` ends with status 3.

30 AlreadyExists
The store already has this blob under the same media type.
Nothing needs to be pushed. Give each item of `ocicp mem` once.

31 SizeMismatch
The content does not have the size that its key states.
Push the whole content, under its own key.

32 DigestMismatch
The content does not have the digest that its key states.
Push the content unchanged, under its own key.

33 BadManifest
The content is not a manifest of its media type. The next error says why.
Check the media type that you gave for it, and look up the next number.

34 Memory
Memory ran out while a blob was pushed. The store keeps its blobs.
Give the process more memory. `ocicp` ends with status 3.

35 EmptyReference
The reference is empty.
Give a tag or a full digest.

36 UnknownReference
The layout has no tag with this name, and no blob with this digest.
List the tags with `ocicp tags FOLDER`, which leaves out those whose manifest is missing or damaged. Write a digest in full, with its algorithm.

37 NotHeld
The store does not have the blob to tag.
Push or copy the blob first, and then tag it.

38 Memory
Memory ran out while a reference was looked up or a tag was set. The tags are unchanged.
Give the process more memory. `ocicp` ends with status 3.

40 Open
The store is not closed: the manifest of the first KEY lists the blob of the second, which is missing.
Push the missing blob, and close the store again.

41 Memory
Memory ran out while a store was closed. The store is returned unchanged.
Give the process more memory.

42 MissingSuccessor
The manifest lists the named blob, which the destination does not have.
Push every blob that a manifest lists before the manifest.

43 Device
A file of the destination could not be written.
Check the permissions and the free space of the disk, remove a folder in the file's place, and copy again.

44 Halted
The live store accepts no more blobs, because an earlier push ran out of memory while it was published.
Copy its blobs with `copy_out`, and open a new live store with them.

45 NotFound
The live store did not have this blob yet.
Look again once the blob has been pushed.

46 Unavailable
The live store is gone, or has no place for another look.
Keep the store while looks are in use, and reuse a look instead of taking new ones.

47 Memory
Memory ran out during a look at a live store.
Give the process more memory.

48 Memory
Memory ran out while a live store was opened. The closed store is returned unchanged.
Give the process more memory.

50 Cycle
The graph has a cycle, so it has no order. Each of these numbers is a successor of the one before it, and the first is a successor of the last.
Remove one of these edges.

51 BadNumber
The list of the first number contains the second number, which is not in the graph.
Give the graph a list for each number.

52 Memory
Memory ran out while a graph was ordered.
Give the process more memory.

53 NotFound
The copy needs the named blob, and the source does not have it. Nothing was copied.
Run `ocicp repair SRC FROM`, with a layout that has the blob.

54 TooLarge
The named manifest is larger than the limit, which follows it in bytes. Nothing was copied.
Check that this blob is a manifest. The limit of `ocicp` is 4194304 bytes, and no flag changes it.

55 Cycle
These manifests list each other in a cycle, so none can be copied before the others. Nothing was copied.
Correct digests allow no cycle: verify the source, and fetch it again from its origin.

56 Manifest
The named blob of the source is not a manifest of its media type. The next error says why. Nothing was copied.
Look up the next number. The manifest has to be built again.

57 Fetch
The named manifest could not be read from the source. The next error says why. Nothing was copied.
Look up the next number.

58 Memory
Memory ran out while a copy was planned. Nothing was copied.
Give the process more memory. `ocicp` ends with status 3.

59 TooMany
The copy needs more than 4294967295 blobs. Nothing was copied.
Copy fewer references at a time.

60 Job
The job of this number failed. The next error says why.
Look up the next number, if there is one.

61 Incomplete
All workers have ended, and the job of this number has no result. This error was never seen.
Please report it.

62 BadWorkers
More than 64 workers were requested. No job was run.
Use 1 to 64 workers, or 0, which means 3.

63 Memory
Memory ran out while workers ran.
Give the process more memory, or use fewer workers.

70 NoLayoutFile
The folder or archive is not an image layout: it does not exist, or has no file `oci-layout`.
Check the path. Only `ocicp copy` creates a layout, as DST. `docker save` writes one since Docker 25. If DST has lost its `oci-layout`, write `{\"imageLayoutVersion\":\"1.0.0\"}` into it again. `-` is an archive from stdin.

71 BadLayoutFile
The file `oci-layout` is not a JSON object with a text `imageLayoutVersion`.
Check the path. An intact `oci-layout` is `{\"imageLayoutVersion\":\"1.0.0\"}`.

72 BadVersion
The layout has another version than 1.0.0.
Create the layout again with a tool that writes version 1.0.0.

73 BadIndex
The file `index.json` is not an image index. The next error says why. If it is 14, only the entry at that position is unreadable, since it is no descriptor.
After 14 run `ocicp untag` for the tag of that entry, or correct the entry, or delete it if it has no tag. After another number fetch `index.json` again from its origin.

74 Device
A file or the folder of the layout could not be read or written, or is not of the right kind.
Check the permissions and the free space of the disk. The files of a layout have to be regular files.

75 Corrupt
The file of the named manifest does not match its size and digest, or that of the named layer or config has another size. A folder in the file's place counts as damage too. The other images can be used.
Run `ocicp repair FOLDER FROM`, with a layout that has the blob; first remove a folder with contents in the file's place. If the image is not wanted, run `ocicp untag` for each of its tags in `index.json`, and delete an entry without a tag.

76 Memory
Memory ran out while a layout was opened, created or saved.
Give the process more memory. `ocicp` ends with status 3.

77 BadManifest
The file of the named manifest has the right digest, but is not a manifest of its media type. The next error says why. The other images can be used.
Build the image again, since a copy or a repair brings the same bytes. If it is not wanted, run `ocicp untag` for each of its tags, and delete an entry without a tag from `index.json`.

78 AlreadyLayout
The folder already is a layout, and cannot be made one again. Nothing was changed.
Open the layout, or choose another folder.

79 NotRemoved
The named file could not be removed. `index.json` is saved, the other files are removed, and no tag has lost anything.
Check the permissions of the folder with the file, and run the same `ocicp prune` again.

80 DestinationOpen
The destination is damaged: the manifest of the first KEY lists the blob of the second, which is missing there, or has a damaged file. Nothing was copied.
Run `ocicp repair DST FROM`, with a layout that has that blob. First remove a folder with contents in the file's place.

81 Plan
The copy could not be planned. The next error says why. Nothing was copied.
Look up the next number.

82 Push
The destination refused the named blob. The next error says why. No tag was set, and the destination keeps its blobs.
Look up the next number, remove the cause, and run the same copy again.

83 Stuck
The destination refused the named blob although it was planned: it has the blob, or lacks a blob that this one lists.
Verify the source, and see that nobody else changes source or destination during the copy.

84 Incomplete
All workers have ended, and the destination does not have the named blob. This error was never seen.
Please report it.

85 BadWorkers
More than 64 workers were requested. Nothing was copied.
Use 1 to 64 workers, or 0, which means 3.

86 Memory
Memory ran out during a copy. The destination keeps its blobs.
Give the process more memory, or use fewer workers. `ocicp` ends with status 3.

87 Reference
A reference was refused. The next error says why.
Look up the next number.

88 Fetch
The named blob could not be read from the source. The next error says why. No tag was set, and the destination keeps its blobs.
Look up the next number, repair the source, and run the same copy again.

89 Memory
Memory ran out during a prune. No tag has lost anything.
Give the process more memory, and run the same prune again. `ocicp` ends with status 3.

90 Failed
A file of a layout could not be read or written.
Check the permissions and the free space of the disk.

91 Memory
Memory ran out while a file of a layout was read or written.
Give the process more memory.

92 BadItem
The named item of `ocicp mem` has no `=`.
Write each item as TYPE=PATH.

93 File
The named file of `ocicp mem` could not be read.
Check the path and the file's permissions.

94 Output
The output could not be written. If the command changes a layout, that is done and saved.
Check where the output goes: the disk may be full, or the program that reads it may have ended.

95 NotWritable
Only `copy --archive` writes a file, and only where nothing is yet. The named path is a file, or is new and has the name of an archive, or is taken. Nothing was changed.
Copy into a folder, without `oci:` before its path, or write a new file with `ocicp copy --archive`. To change an archive, unpack it, and change the layout.

96 Unknown
The layout does not have the named blob, or its manifest there is damaged, so it is not known what that blob needs. Nothing was removed, and no tag was set. Blobs that a mirror copied may be there.
Run `ocicp repair FOLDER FROM`, with a layout that has the blob; first remove a folder with contents in the file's place. If the image is not wanted, run `ocicp untag` for each of its tags, and delete an entry without a tag from `index.json`. A damaged manifest that only an index lists can be deleted from `blobs` once no tag needs that index. `ocicp verify` shows a manifest that lists a missing one, and `ocicp prune --untagged` removes it once no tag needs it, with every other image without a tag.

97 NoTags
The layout has no tag, or none would stay, so no blob would be kept or copied. Nothing was copied or removed.
Check the path. `ocicp tag FOLDER DIGEST NAME` keeps a blob. `ocicp prune` without `--untagged` needs no tag. If nothing is to be kept, delete the folder.

98 LinkedBlobs
The named folder of the layout is a symbolic link, or has a blob that is a link to another one. More than this layout or blob may need the files behind it. Nothing was removed.
Replace the link by a copy of what it leads to, and run the same command again.

99 Locked
Another process has the lock of the named folder, and `--no-wait` was given. Nothing was changed.
Run the same command later, or without `--no-wait`, so that it waits.

100 NotArchive
The file does not begin as a tar archive.
Give the folder of an image layout, or an uncompressed tar archive of one.

101 Compressed
The archive is compressed, in the named form.
Decompress it first, for example with `gzip -d`, `zstd -d`, `xz -d` or `bzip2 -d`.

102 BadHeader
The header at this offset of the archive cannot be read: its checksum, a number or an extended header is wrong.
The archive is damaged, at least from this offset on. Fetch it again from its origin.

103 Truncated
The member of the archive whose header is at this offset goes past the end of the file.
The archive is cut off. Fetch it again from its origin.

104 TooLong
The extended header at this offset of the archive has more than 1048576 bytes.
Write the archive again with another tool; no image needs such a header.

105 Device
The archive could not be read.
Check the file and its permissions, and the disk.

106 Memory
Memory ran out while an archive was opened.
Give the process more memory. `ocicp` ends with status 3.

107 NoPlatform
The reference names no index that lists a manifest for the named platform. The platforms that the index lists follow. If none follows, the reference may name no index.
Write one of these platforms. If none follows, leave out `--platform`, or look with `ocicp tree` at what the reference names.

108 NoMatch
The layout has tags, but none of them matches a pattern of `--match`. Nothing was copied.
List the tags with `ocicp tags SRC`. The pattern must match a whole tag. Quote it, as in `--match 'v1.*'`, or the shell may replace it by names of files.

109 NoIndex
The folder has blobs and no `index.json`, or for `prune` one without entries, so nothing says which blobs are wanted. Nothing was changed.
Put `index.json` back. If you have no copy of it, `ocicp copy` into the folder writes a new one; the next `ocicp prune` then removes what only the lost one named. If nothing is to be kept, delete the folder.

110 IndexChanged
Another program wrote `index.json` or removed it while the command ran. It stays as that program left it. Copied blobs stay.
Run the command again: it then starts from the new index, and copies only what is missing. Do not let another program write into the folder meanwhile.";

/// What `explain` prints of one error number.
#[derive(Clone, Copy, Serialize)]
pub struct Explanation {
    /// The number of the error.
    pub number: u8,
    /// The name of the error.
    pub name: &'static str,
    /// The meaning and the remedy, each on a line of its own. The last line has no line feed.
    pub text: &'static str,
}

impl Display for Explanation {
    /// Prints the number and the name on the first line, and the text below it. Each line has its
    /// line feed.
    fn fmt<W: Write>(&self, f: &mut Formatter<W>) -> fmt::Result {
        writeln!(f, "{} {}", self.number, self.name)?;
        writeln!(f, "{}", self.text)
    }
}

/// What `explain` prints: the explanation of a number, or those of all numbers that have a name.
#[derive(Drop, Serialize)]
pub struct Explanations {
    /// The explanation of the number, or of the first one that has the name.
    #[serde(flatten)]
    pub first: Explanation,
    /// Those of the other numbers that have the name.
    #[serde(skip_serializing_if = "Vec::is_empty")]
    pub more: Vec<Explanation>,
}

impl Display for Explanations {
    /// Prints each explanation, with an empty line between two.
    fn fmt<W: Write>(&self, f: &mut Formatter<W>) -> fmt::Result {
        write!(f, "{}", self.first)?;
        for explanation in &self.more {
            write!(f, "\n{explanation}")?;
        }
        Ok(())
    }
}

/// Returns the explanations for a word: that of the number which it is, without leading zeros, or those
/// of the numbers that have the name which it is, in their order. `None` if no error has it.
pub(crate) fn find_explanations(
    alloc: Global,
    word: &str,
) -> Result<Option<Explanations>, AllocError>
    ensures asked { IfOk result (λ found. IfSome found (λ it.
        All (IsAskedBy word.now) (it.first ∷ it.more.items))) }
{
    let mut found = explanations_for(alloc, word)?;
    if found.is_empty() {
        return Ok(None);
    }
    let first = found.remove(0);
    Ok(Some(Explanations { first, more: found }))
}

/// Returns the explanations for a word, in the order of the table.
fn explanations_for(alloc: Global, word: &str) -> Result<Vec<Explanation>, AllocError>
    ensures asked { IfOk result (λ found. All (IsAskedBy word.now) found.items) }
{
    let mut found = Vec::new(alloc);
    for entry in REFUSALS.split("\n\n") {
        if let Some(explanation) = explanation_for(entry, word) {
            found.push(explanation)?;
        }
    }
    Ok(found)
}

/// Returns the explanation of an entry of the table, if a word is its number or its name.
fn explanation_for(entry: &'static str, word: &str) -> Option<Explanation>
    ensures asked { IfSome result (λ found. IsAskedBy word.now found) }
{
    let explanation = parse_entry(entry)?;
    if first_word(entry) == word || explanation.name == word {
        Some(explanation)
    } else {
        None
    }
}

/// Returns the first sentence of the meaning of an error number, without its full stop. `None` if
/// no error has the number.
pub fn first_sentence(number: u8) -> Option<&'static str> {
    let entry = REFUSALS.split("\n\n").find(|entry| is_of(entry, number))?;
    let meaning = entry.lines().nth(1)?;
    match meaning.split_once(". ") {
        Some((sentence, _)) => Some(sentence),
        None => meaning.strip_suffix('.'),
    }
}

/// Whether an entry of the table is that of a number.
fn is_of(entry: &str, number: u8) -> bool {
    match first_word(entry).parse::<u8>() {
        Ok(first) => first == number,
        Err(_) => false,
    }
}

/// The text before the first space.
fn first_word(text: &str) -> &str
    ensures { result.now ≡ before_space text.now }
{
    match text.split_once(' ') {
        Some((first, _)) => first,
        None => text,
    }
}

/// Parses an entry of the table. `None` if it does not begin with a number and a name.
fn parse_entry(entry: &'static str) -> Option<Explanation>
    ensures { IfSome result (λ found. Writes (before_space entry.now) found.number) }
{
    let (number, rest) = entry.split_once(' ')?;
    let (name, text) = rest.split_once('\n')?;
    match number.parse::<u8>() {
        Ok(number) => Some(Explanation { number, name, text }),
        Err(_) => None,
    }
}
