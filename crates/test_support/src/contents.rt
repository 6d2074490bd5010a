//! Sample contents: small images, indexes and their layers, with computed digests.
//!
//! | Content | Description |
//! |---|---|
//! | `empty` | the empty JSON object, under the media type of an empty config |
//! | `foo`, `bar` | layers of three bytes |
//! | `foo_by_sha512` | the bytes of `foo`, with their SHA-512 digest |
//! | `image_0` | an image with the config `empty`, like the others, and `layers` null |
//! | `image_1`, `image_2`, `image_3` | images with the layers `foo` twice, `foo`, `foo` and `bar` |
//! | `image_4` | an image whose one layer has the bytes of `image_0` |
//! | `image_5` | an image whose one layer is `foo_by_sha512` |
//! | `referrer` | an image without layers whose `subject` is `image_2` |
//! | `index_1`, `index_2` | indexes of `image_2` and `image_3`, of `image_0` and `image_4` |
//! | `index_3`, `index_4` | indexes of `image_2`, of `index_3` |
//! | `index_5`, `index_6` | indexes of `index_4` and `image_2`, of `index_5` |
//! | `docker_image` | a Docker image whose one layer, the bytes of `bar`, is not distributed |
use bytes::Bytes;
use oci_digest::Digest;
use oci_manifest::Key;
use std::alloc::Global;
use std::slice;
use std::test::Fail;

pub const IMAGE: &str = "application/vnd.oci.image.manifest.v1+json";

pub const INDEX: &str = "application/vnd.oci.image.index.v1+json";

pub const DOCKER_IMAGE: &str = "application/vnd.docker.distribution.manifest.v2+json";

pub const EMPTY: &str = "application/vnd.oci.empty.v1+json";

pub const LAYER: &str = "application/vnd.oci.image.layer.v1.tar";

pub const FOREIGN: &str = "application/vnd.docker.image.rootfs.foreign.diff.tar.gzip";

/// The name of the only row with a SHA-512 digest.
const FOO_BY_SHA512: &str = "foo_by_sha512";

/// The beginning of the images with the config `empty`.
const IMAGE_HEAD: &str =
    r#"{"schemaVersion":2,"mediaType":"application/vnd.oci.image.manifest.v1+json","config":<empty>,"layers":"#;

/// The beginning of the Docker image.
const DOCKER_HEAD: &str = r#"{"schemaVersion":2,"config":<empty>,"layers":"#;

/// The beginning of the indexes.
const INDEX_HEAD: &str = r#"{"schemaVersion":2,"manifests":["#;

/// A content: its name, its media type, and its text in two parts. In the text, `<name>` is
/// replaced by the descriptor of the row with that name.
type Row = (&'static str, &'static str, &'static str, &'static str);

/// The contents. A row refers only to earlier rows.
const ROWS: &[Row] = &[
    ("empty", EMPTY, "", "{}"),
    ("foo", LAYER, "", "foo"),
    ("bar", LAYER, "", "bar"),
    (FOO_BY_SHA512, LAYER, "", "foo"),
    ("image_0", IMAGE, IMAGE_HEAD, "null}"),
    ("image_2", IMAGE, IMAGE_HEAD, "[<foo>]}"),
    ("image_3", IMAGE, IMAGE_HEAD, "[<foo>,<bar>]}"),
    ("referrer", IMAGE, IMAGE_HEAD, r#"[],"subject":<image_2>}"#),
    ("index_1", INDEX, INDEX_HEAD, "<image_2>,<image_3>]}"),
    ("index_3", INDEX, INDEX_HEAD, "<image_2>]}"),
    ("index_4", INDEX, INDEX_HEAD, "<index_3>]}"),
    ("index_5", INDEX, INDEX_HEAD, "<index_4>,<image_2>]}"),
    ("index_6", INDEX, INDEX_HEAD, "<index_5>]}"),
    ("image_0_as_layer", LAYER, IMAGE_HEAD, "null}"),
    ("image_1", IMAGE, IMAGE_HEAD, "[<foo>,<foo>]}"),
    ("image_4", IMAGE, IMAGE_HEAD, "[<image_0_as_layer>]}"),
    ("image_5", IMAGE, IMAGE_HEAD, "[<foo_by_sha512>]}"),
    ("index_2", INDEX, INDEX_HEAD, "<image_0>,<image_4>]}"),
    ("foreign_bar", FOREIGN, "", "bar"),
    (
        "docker_image",
        DOCKER_IMAGE,
        DOCKER_HEAD,
        "[<foreign_bar>]}",
    ),
];

/// The names of the contents.
#[derive(Clone, Copy, Debug)]
pub enum Sample {
    Empty,
    Foo,
    FooBySha512,
    Bar,
    Image0,
    /// The bytes of `image_0` under the media type of a layer.
    Image0AsLayer,
    Image1,
    Image2,
    Image3,
    Image4,
    Image5,
    Referrer,
    Index1,
    Index2,
    Index3,
    Index4,
    Index5,
    Index6,
    DockerImage,
}

impl Sample {
    pub fn content(self, alloc: Global) -> Result<Content, Fail> {
        content_named(alloc, self.name())
    }

    pub fn key(self, alloc: Global) -> Result<Key, Fail> {
        let content = self.content(alloc)?;
        key_named(alloc, self.name(), &content)
    }

    pub fn bytes(self, alloc: Global) -> Result<Bytes, Fail> {
        let content = self.content(alloc)?;
        Ok(Bytes::from_vec(content.bytes.into_bytes())?)
    }

    /// Returns the name of the row.
    fn name(self) -> &'static str {
        match self {
            Sample::Empty => "empty",
            Sample::Foo => "foo",
            Sample::FooBySha512 => FOO_BY_SHA512,
            Sample::Bar => "bar",
            Sample::Image0 => "image_0",
            Sample::Image0AsLayer => "image_0_as_layer",
            Sample::Image1 => "image_1",
            Sample::Image2 => "image_2",
            Sample::Image3 => "image_3",
            Sample::Image4 => "image_4",
            Sample::Image5 => "image_5",
            Sample::Referrer => "referrer",
            Sample::Index1 => "index_1",
            Sample::Index2 => "index_2",
            Sample::Index3 => "index_3",
            Sample::Index4 => "index_4",
            Sample::Index5 => "index_5",
            Sample::Index6 => "index_6",
            Sample::DockerImage => "docker_image",
        }
    }
}

/// Bytes, which are text here, and their media type.
#[derive(Drop)]
pub struct Content {
    pub media_type: &'static str,
    pub bytes: String,
}

impl Content {
    pub fn key(&self, alloc: Global) -> Result<Key, Fail> {
        self.key_as(alloc, self.media_type)
    }

    /// Returns the key of these bytes under another media type.
    pub fn key_as(&self, alloc: Global, media_type: &str) -> Result<Key, Fail> {
        let digest = Digest::of(self.bytes.as_bytes());
        let media_type = String::from_str(alloc, media_type)?;
        Ok(Key::new(media_type, digest, self.bytes.len() as u64)?)
    }

    /// Returns the key of these bytes with their SHA-512 digest.
    pub fn key_by_sha512(&self, alloc: Global) -> Result<Key, Fail> {
        let digest = Digest::of_sha512(self.bytes.as_bytes());
        let media_type = String::from_str(alloc, self.media_type)?;
        Ok(Key::new(media_type, digest, self.bytes.len() as u64)?)
    }

    /// Returns the descriptor of this content as JSON.
    pub fn descriptor(&self, alloc: Global) -> Result<String, Fail> {
        descriptor(alloc, &self.key(alloc)?)
    }
}

/// Returns the descriptor of a key as JSON.
pub fn descriptor(alloc: Global, key: &Key) -> Result<String, Fail> {
    let (media_type, digest, size) = (key.media_type(), key.digest(), key.size());
    Ok(format!(in alloc;
        "{{\"mediaType\":\"{media_type}\",\"digest\":\"{digest}\",\"size\":{size}}}"
    )?)
}

/// Returns the key of the content with this name.
fn key_named(alloc: Global, name: &str, content: &Content) -> Result<Key, Fail> {
    if name == FOO_BY_SHA512 {
        content.key_by_sha512(alloc)
    } else {
        content.key(alloc)
    }
}

/// Returns the content with this name, after creating the descriptors of all earlier rows.
fn content_named(alloc: Global, name: &str) -> Result<Content, Fail> {
    let mut descriptors = Vec::new(alloc);
    for row in ROWS {
        if row.0 == name {
            return content_of(alloc, row, &descriptors);
        }
        push_descriptor(alloc, &mut descriptors, row)?;
    }
    Err(Fail::from("no content has this name"))
}

/// Appends the descriptor of a row to the descriptors of the earlier rows.
fn push_descriptor(alloc: Global, descriptors: &mut Vec<String>, row: &Row) -> Result<(), Fail> {
    let content = content_of(alloc, row, descriptors)?;
    let key = key_named(alloc, row.0, &content)?;
    Ok(descriptors.push(descriptor(alloc, &key)?)?)
}

/// Returns the content of a row, given the descriptors of the earlier rows.
fn content_of(alloc: Global, row: &Row, descriptors: &[String]) -> Result<Content, Fail> {
    let (_, media_type, head, rest) = *row;
    let mut bytes = String::new(alloc);
    push_filled(&mut bytes, head, descriptors)?;
    push_filled(&mut bytes, rest, descriptors)?;
    Ok(Content { media_type, bytes })
}

/// Appends a text with each name replaced by its descriptor.
fn push_filled(bytes: &mut String, text: &str, descriptors: &[String]) -> Result<(), Fail> {
    for part in text.split('<') {
        push_part(bytes, part, descriptors)?;
    }
    Ok(())
}

/// Appends a name's descriptor and the text after it, or the beginning of a text.
fn push_part(bytes: &mut String, part: &str, descriptors: &[String]) -> Result<(), Fail> {
    match part.split_once('>') {
        Some((name, rest)) => {
            push_named(bytes, name, descriptors)?;
            Ok(bytes.push_str(rest)?)
        }
        None => Ok(bytes.push_str(part)?),
    }
}

/// Appends the descriptor of the row with this name.
fn push_named(bytes: &mut String, name: &str, descriptors: &[String]) -> Result<(), Fail> {
    for (row, descriptor) in ROWS.iter().zip(descriptors) {
        if row.0 == name {
            return Ok(bytes.push_str(descriptor.as_str())?);
        }
    }
    Err(Fail::from("no row before has this name"))
}

/// Returns an image with the config `empty`. Its text continues with `rest` after `"layers":`.
pub fn image(alloc: Global, rest: &str) -> Result<Content, Fail> {
    let config = Sample::Empty.content(alloc)?.descriptor(alloc)?;
    let mut bytes = String::new(alloc);
    push_filled(&mut bytes, IMAGE_HEAD, slice::from_ref(&config))?;
    bytes.push_str(rest)?;
    Ok(Content {
        media_type: IMAGE,
        bytes,
    })
}

/// Returns an index with the descriptors in `list`, which has no brackets.
pub fn index(alloc: Global, list: &str) -> Result<Content, Fail> {
    Ok(Content {
        media_type: INDEX,
        bytes: format!(in alloc; "{INDEX_HEAD}{list}]}}")?,
    })
}
