// Requests against what they ask, a table for each part of it. The answers were made by another reader of requests.
use crate::route::fields_of;
use arti_model::{Ask, AskRow};
use arti_route::ask_of;
use arti_rows::{ItemKey, Refusal, Seq, SomeDigests, Text};
use arti_wire::Request;
use std::alloc::{AllocError, Global};
use std::test::Fail;

// In each table requests stand with `^` between them: method, target, fields and what is asked, with `#` between them. `{3xa}` is `aaa`.
// An item is its repository, path and name with `|` between them, a text stands in brackets, a user behind `by`.

// The parts of targets: marks, escapes, a leading `artifactory`.
fn targets() -> &'static str {
    "GET#libs/a##BadTarget^\
        GET#*##BadTarget^\
        OPTIONS#*##BadTarget^\
        GET#http://h/libs/a##BadTarget^\
        GET#%2Flibs/a##BadTarget^\
        GET#;/libs/a##BadTarget^\
        GET#?/libs/a##BadTarget^\
        GET#/##NoRoute^\
        GET#//##BadName^\
        GET#//a##BadName^\
        GET#/libs##NoRoute^\
        GET#/libs/##BadName^\
        GET#/libs//##BadName^\
        GET#/libs/a##Fetch libs|.|a^\
        GET#/libs/a/##Fetch libs|.|a^\
        GET#/libs/a//##BadName^\
        GET#/libs//a##BadName^\
        PUT#/libs//a##BadName^\
        PUT#/libs/a/##Folder libs|.|a^\
        PUT#/libs/a//##BadName^\
        PUT#/libs/##BadName^\
        PUT#/libs//##BadName^\
        HEAD#/libs/a/##Head libs|.|a^\
        DELETE#/libs/a/b/##Delete libs|a|b^\
        DELETE#/libs/a/b/c##Delete libs|a/b|c^\
        GET#/artifactory##NoRoute^\
        GET#/artifactory/##NoRoute^\
        GET#/artifactory/libs##NoRoute^\
        GET#/artifactory/libs/a##Fetch libs|.|a^\
        GET#/artifactory//libs/a##BadName^\
        GET#/%61rtifactory/libs/a##Fetch libs|.|a^\
        GET#/Artifactory/libs##Fetch Artifactory|.|libs^\
        GET#/artifactory/artifactory/a##BadName^\
        GET#/artifactory/artifactory/libs/a##BadName^\
        GET#/libs/artifactory/a##Fetch libs|artifactory|a^\
        GET#/artifactoryy/a##Fetch artifactoryy|.|a^\
        PUT#/artifactory;a/libs/b##NoRoute^\
        GET#/artifactory?/libs/a##NoRoute^\
        GET#/libs/a;b##Fetch libs|.|a^\
        GET#/libs/a;b/c##Fetch libs|.|a^\
        GET#/libs;a/b##NoRoute^\
        GET#/;libs/a##NoRoute^\
        GET#/libs/a;##Fetch libs|.|a^\
        GET#/libs/a;?b##Fetch libs|.|a^\
        GET#/libs/a;b?c;d##Fetch libs|.|a^\
        GET#/libs/a?b;c##Fetch libs|.|a^\
        GET#/libs/a?b?c##Fetch libs|.|a^\
        GET#/libs/a?##Fetch libs|.|a^\
        GET#/libs?/a##NoRoute^\
        GET#/libs/a/;b##Fetch libs|.|a^\
        PUT#/libs/a/;b##Folder libs|.|a^\
        PUT#/libs/a;b/##Deploy libs|.|a [b/] no^\
        PUT#/libs/a;b=c;d=e##Deploy libs|.|a [b=c;d=e] no^\
        PUT#/libs/a;##Deploy libs|.|a [] no^\
        PUT#/libs/a;;##Deploy libs|.|a [;] no^\
        PUT#/libs/a;b=c?d;e##Deploy libs|.|a [b=c] no^\
        PUT#/libs/a;b%3Bc=%2C%26##Deploy libs|.|a [b;c=,&] no^\
        PUT#/libs/a;+%2B%20##Deploy libs|.|a [++ ] no^\
        PUT#/libs/a;%ff##BadTarget^\
        PUT#/libs/a;%c3%a4=1##Deploy libs|.|a [ä=1] no^\
        PUT#/libs/a?;b=c##Deploy libs|.|a [] no^\
        GET#/libs/a%3Bb##Fetch libs|.|a;b^\
        GET#/libs/a%3Fb##BadName^\
        GET#/libs/a%3fb##BadName^\
        GET#/libs/a%20b##Fetch libs|.|a b^\
        GET#/libs/a+b##Fetch libs|.|a+b^\
        GET#/libs/a%2Bb##Fetch libs|.|a+b^\
        GET#/libs/a%2bb##Fetch libs|.|a+b^\
        GET#/libs/a%2Fb##BadName^\
        GET#/libs/a%2fb##BadName^\
        GET#/libs/%2F##BadName^\
        GET#/libs%2Fa##NoRoute^\
        GET#/libs%2Fa/b##BadName^\
        GET#/libs/a/%2F/b##BadName^\
        GET#/libs/%00##BadName^\
        GET#/libs/a%00b/c##BadName^\
        GET#/libs/%1f##BadName^\
        GET#/libs/%7F##BadName^\
        GET#/libs/%20##Fetch libs|.| ^\
        GET#/libs/%##Fetch libs|.|%^\
        GET#/libs/a%##Fetch libs|.|a%^\
        GET#/libs/a%4##Fetch libs|.|a%4^\
        GET#/libs/a%4g##Fetch libs|.|a%4g^\
        GET#/libs/%%41##Fetch libs|.|%A^\
        GET#/libs/%2541##Fetch libs|.|%41^\
        GET#/libs/%25%34%31##Fetch libs|.|%41^\
        GET#/libs/%ff##BadTarget^\
        GET#/libs/%c3##BadTarget^\
        GET#/libs/%c3%a4##Fetch libs|.|ä^\
        GET#/libs/%c3/%a4##BadTarget^\
        GET#/libs/%e2%82%ac##Fetch libs|.|€^\
        GET#/libs/%ed%a0%80##BadTarget^\
        GET#/libs/%f4%90%80%80##BadTarget^\
        GET#/libs/%c0%80##BadTarget^\
        GET#/%ff##BadTarget^\
        GET#/api/nothing;%ff##BadTarget^\
        GET#/libs/a?b=%ff##BadTarget^\
        GET#/libs/a?%ff=b##Fetch libs|.|a^\
        GET#/libs/a?b=%c3%a4&b=%80##BadTarget^\
        GET#/libs/a;%80##BadTarget^\
        GET#/libs/ä##Fetch libs|.|ä^\
        GET#/libs/a?b=%ff=##BadTarget^\
        POST#/libs/%ff##BadTarget"
}

// Methods and paths.
fn routes() -> &'static str {
    "PUT#/libs/a/b.txt##Deploy libs|a|b.txt [] no^\
        POST#/libs/a##NoMethod^\
        PATCH#/libs/a##NoMethod^\
        get#/libs/a##NoMethod^\
        GETS#/libs/a##NoMethod^\
        GE#/libs/a##NoMethod^\
        OPTIONS#/libs/a##NoMethod^\
        POST#/libs##NoRoute^\
        POST#/##NoRoute^\
        HEAD#/libs/a##Head libs|.|a^\
        DELETE#/libs/a##Delete libs|.|a^\
        GET#/api##NoRoute^\
        GET#/api/##NoRoute^\
        GET#/api/nothing##NoRoute^\
        POST#/api/nothing##NoRoute^\
        GET#/apis/a##Fetch apis|.|a^\
        GET#/Api/a##Fetch Api|.|a^\
        GET#/%61pi/system/ping##Ping^\
        GET#/artifactory/api/system/ping##Ping^\
        GET#/api/system/ping##Ping^\
        GET#/api/system/ping/##NoRoute^\
        GET#/api/system/pin##NoRoute^\
        GET#/api/system/ping/a##NoRoute^\
        POST#/api/system/ping##NoMethod^\
        HEAD#/api/system/ping##NoMethod^\
        GET#/api/system##NoRoute^\
        GET#/api/system/%70ing##Ping^\
        GET#/api/system/ping;a##Ping^\
        GET#/api/system/ping?a##Ping^\
        GET#/api%2Fsystem/ping##BadName^\
        PUT#/api/libs/a##NoRoute^\
        GET#/api/storage/libs##NoRoute^\
        GET#/api/storage/libs/##BadName^\
        GET#/api/storage/libs/a##Info libs|.|a^\
        GET#/api/storage/libs/a/b/c##Info libs|a/b|c^\
        GET#/api/storage/libs/a/##BadName^\
        GET#/api/storage//a##BadName^\
        GET#/api/storage##NoRoute^\
        GET#/api/storage/##NoRoute^\
        POST#/api/storage/libs/a##NoMethod^\
        HEAD#/api/storage/libs/a##NoMethod^\
        GET#/api/storage/libs/a;b##Info libs|.|a^\
        GET#/api/storage/libs/a%2Fb##BadName^\
        GET#/api/storage/*/a##BadName^\
        GET#/api/storage/libs/*##BadName^\
        GET#/api/copy/libs/a##NoMethod^\
        POST#/api/copy/libs##NoRoute^\
        POST#/api/copy/libs/a?to=/l/b##Copy libs|.|a l|.|b no^\
        POST#/api/move/libs/a?to=/l/b##Move libs|.|a l|.|b no^\
        PUT#/api/move/libs/a?to=/l/b##NoMethod^\
        POST#/api/Copy/libs/a?to=/l/b##NoRoute^\
        GET#/api/repositories##ListRepos^\
        PUT#/api/repositories##NoMethod^\
        GET#/api/repositories/##BadName^\
        GET#/api/repositories/libs##GetRepo [libs]^\
        PUT#/api/repositories/libs##Define [libs]^\
        POST#/api/repositories/libs##Redefine [libs]^\
        DELETE#/api/repositories/libs##NoMethod^\
        GET#/api/repositories/libs/a##NoRoute^\
        PUT#/api/repositories/##BadName^\
        PUT#/api/repositories/api##BadName^\
        GET#/api/repositories/a%2Fb##BadName^\
        PUT#/api/build##PutBuild^\
        GET#/api/build##NoMethod^\
        PUT#/api/build/##NoMethod^\
        GET#/api/build/app##NoMethod^\
        GET#/api/build/app/1##GetBuild [app] [1]^\
        GET#/api/build/app/1/##NoRoute^\
        GET#/api/build/app/##BadName^\
        GET#/api/build//1##BadName^\
        GET#/api/build/a%2Fb/1##GetBuild [a/b] [1]^\
        GET#/api/build/a%20b/%c3%a4##GetBuild [a b] [ä]^\
        GET#/api/build/a%00/1##BadName^\
        GET#/api/build/promote/app/1##NoMethod^\
        POST#/api/build/promote/app/1##Promote [app] [1]^\
        POST#/api/build/promote/app##NoMethod^\
        GET#/api/build/promote/app##GetBuild [promote] [app]^\
        POST#/api/build/promote/app/##BadName^\
        POST#/api/build/promoted/app/1##NoRoute^\
        DELETE#/api/build/app?buildNumbers=1##DropBuilds [app] [1] no no^\
        DELETE#/api/build/?buildNumbers=1##BadName^\
        DELETE#/api/build/app/1##NoMethod^\
        POST#/api/build/app##NoMethod^\
        POST#/api/search/aql##Aql^\
        GET#/api/search/aql##NoMethod^\
        POST#/api/search/aql/##NoRoute^\
        POST#/api/search/aq##NoRoute^\
        POST#/api/search/aql;a?b##Aql^\
        POST#/artifactory/api/search/aql##Aql^\
        POST#/api/arti/spec##Spec^\
        GET#/api/arti/spec##NoMethod^\
        POST#/api/arti/specs##NoRoute^\
        POST#/api/arti##NoRoute"
}

// Parameters of queries, and the order of what is wrong.
fn parameters() -> &'static str {
    "GET#/api/storage/libs/a?properties##GetProps libs|.|a all^\
        GET#/api/storage/libs/a?properties=##GetProps libs|.|a []^\
        GET#/api/storage/libs/a?properties=k,l##GetProps libs|.|a [k,l]^\
        GET#/api/storage/libs/a?a&properties=k&properties=l##GetProps libs|.|a [k]^\
        GET#/api/storage/libs/a?Properties=k##Info libs|.|a^\
        GET#/api/storage/libs/a?propertie=k##Info libs|.|a^\
        GET#/api/storage/libs/a?properties=a=b##GetProps libs|.|a [a=b]^\
        GET#/api/storage/libs/a?properties=a+b%2B%2c%26##GetProps libs|.|a [a+b+,&]^\
        GET#/api/storage/libs/a?%70roperties=k##Info libs|.|a^\
        GET#/api/storage/libs/a?properties=k;l##GetProps libs|.|a [k;l]^\
        GET#/api/storage/libs/a?&&properties##GetProps libs|.|a all^\
        GET#/api/storage/libs/a?=properties##Info libs|.|a^\
        GET#/api/storage/libs/a?properties&properties=k##GetProps libs|.|a all^\
        PUT#/api/storage/libs/a##Missing: properties^\
        PUT#/api/storage/libs/a?properties##SetProps libs|.|a [] yes^\
        PUT#/api/storage/libs/a?properties=k=v##SetProps libs|.|a [k=v] yes^\
        PUT#/api/storage/libs/a?properties=k=v;l=w&recursive=0##SetProps libs|.|a [k=v;l=w] no^\
        PUT#/api/storage/libs/a?recursive=1&properties=k=v##SetProps libs|.|a [k=v] yes^\
        PUT#/api/storage/libs/a?properties=k=v&recursive=2##BadQuery: recursive^\
        PUT#/api/storage/libs/a?properties=k=v&recursive=##BadQuery: recursive^\
        PUT#/api/storage/libs/a?properties=k=v&recursive##BadQuery: recursive^\
        PUT#/api/storage/libs/a?properties=k=v&recursive=01##BadQuery: recursive^\
        PUT#/api/storage/libs/a?properties=k=v&recursive=%30##SetProps libs|.|a [k=v] no^\
        PUT#/api/storage/libs/a?recursive=x##Missing: properties^\
        PUT#/api/storage/libs/a:b?properties=k=v&recursive=x##BadQuery: recursive^\
        PUT#/api/storage/libs/a?properties=k=v&recursive=0&recursive=x##SetProps libs|.|a [k=v] no^\
        PUT#/api/storage/libs/a?properties=k=v&dry=x##SetProps libs|.|a [k=v] yes^\
        DELETE#/api/storage/libs/a##Missing: properties^\
        DELETE#/api/storage/libs/a?properties=k,l##DropProps libs|.|a [k,l] yes^\
        DELETE#/api/storage/libs/a?properties=k&recursive=0##DropProps libs|.|a [k] no^\
        DELETE#/api/storage/libs/a?properties=k&recursive=true##BadQuery: recursive^\
        DELETE#/api/storage/l:s/a?properties=##BadName^\
        POST#/api/copy/libs/a##Missing: to^\
        POST#/api/copy/libs/a?to##BadQuery: to^\
        POST#/api/copy/libs/a?to=##BadQuery: to^\
        POST#/api/copy/libs/a?to=/##BadQuery: to^\
        POST#/api/copy/libs/a?to=/l##BadQuery: to^\
        POST#/api/copy/libs/a?to=/l/##Copy libs|.|a l|.|a no^\
        POST#/api/copy/libs/a/b?to=/l/c/##Copy libs|a|b l|c|b no^\
        POST#/api/copy/libs/a?to=l/b##BadQuery: to^\
        POST#/api/copy/libs/a?to=//b##BadQuery: to^\
        POST#/api/copy/libs/a?to=/l//b##BadName^\
        POST#/api/copy/libs/a?to=/l/b/c&dry=1##Copy libs|.|a l|b|c yes^\
        POST#/api/copy/libs/a?to=/l/b&dry=0##Copy libs|.|a l|.|b no^\
        POST#/api/copy/libs/a?to=/l/b&dry=##BadQuery: dry^\
        POST#/api/copy/libs/a?to=l&dry=x##BadQuery: dry^\
        POST#/api/copy/libs/a?dry=x##Missing: to^\
        POST#/api/copy/libs/a?to=%2Fl%2Fb%20c##Copy libs|.|a l|.|b c no^\
        POST#/api/copy/libs/a?to=/l/b+c##Copy libs|.|a l|.|b+c no^\
        POST#/api/copy/li:s/a?to=/l:/b##BadName^\
        POST#/api/copy/libs/a:?to=l##BadQuery: to^\
        POST#/api/copy/libs/a?to=/l:/b##BadName^\
        POST#/api/copy/libs/a?to=/l/b:##BadName^\
        POST#/api/copy/libs/{256xa}?to=/l:/b##TooLong^\
        POST#/api/copy/libs/a?to=/api/b##BadName^\
        POST#/api/copy/libs/a?to=/l/{256xb}##TooLong^\
        POST#/api/copy/libs/a/?to=/l/b##BadName^\
        POST#/api/copy/libs/a/?to=/l/##BadQuery: to^\
        POST#/api/move/libs/a?to=/l/b&dry=1##Move libs|.|a l|.|b yes^\
        POST#/api/move/libs/a?to=/l/b?c##BadName^\
        POST#/api/move/libs/a%2Fb?to=/l/##BadName^\
        POST#/api/move/libs/a;b?to=/l/##Move libs|.|a l|.|a no^\
        DELETE#/api/build/app##Missing: buildNumbers^\
        DELETE#/api/build/app?buildNumbers##BadName^\
        DELETE#/api/build/app?buildNumbers=1,2,1##DropBuilds [app] [1] [2] [1] no no^\
        DELETE#/api/build/app?buildNumbers=1,&artifacts=1##BadName^\
        DELETE#/api/build/app?buildNumbers=1&artifacts=1&deleteAll=1##DropBuilds [app] [1] yes yes^\
        DELETE#/api/build/app?buildNumbers=1&deleteAll=x&artifacts=y##BadQuery: artifacts^\
        DELETE#/api/build/app?buildNumbers=1&deleteAll=x##BadQuery: deleteAll^\
        DELETE#/api/build/app?buildNumbers=a%2Cb##DropBuilds [app] [a] [b] no no^\
        DELETE#/api/build/app?buildNumbers=%00##BadName^\
        DELETE#/api/build/app?buildNumbers=1,{256xa}##TooLong^\
        DELETE#/api/build/a%01?buildNumbers={256xa}##BadName^\
        DELETE#/api/build/{256xa}?buildNumbers=,##TooLong^\
        DELETE#/api/build/app?artifacts=x##Missing: buildNumbers"
}

// Names at their limits.
fn names() -> &'static str {
    "GET#/{64xr}/a##Fetch {64xr}|.|a^\
        GET#/{65xr}/a##BadName^\
        PUT#/api/repositories/{64xr}##Define [{64xr}]^\
        PUT#/api/repositories/{65xr}##BadName^\
        GET#/libs/{255xa}##Fetch libs|.|{255xa}^\
        GET#/libs/{256xa}##TooLong^\
        GET#/libs/a/{256xa}/b##TooLong^\
        GET#/libs/{127x%c3%a4}a##Fetch libs|.|{127xä}a^\
        GET#/libs/{128x%c3%a4}##TooLong^\
        GET#/libs/{255x%61}##Fetch libs|.|{255xa}^\
        GET#/libs/{256xa}/b:##TooLong^\
        GET#/libs/b:/{256xa}##BadName^\
        GET#/libs/{256xa}:##BadName^\
        GET#/libs/a%2Fb/{256xa}##BadName^\
        GET#/libs/{256xa}/a%2Fb##TooLong^\
        GET#/libs/{250xa}/{250xb}/{250xc}/{250xd}/{20xe}##Fetch libs|{250xa}/{250xb}/{250xc}/{250xd}|{20xe}^\
        GET#/libs/{250xa}/{250xb}/{250xc}/{250xd}/{21xe}##TooLong^\
        GET#/libs/{250xa}/{250xb}/{250xc}/{250xd}/{20xe}/##Fetch libs|{250xa}/{250xb}/{250xc}/{250xd}|{20xe}^\
        GET#/libs/{63xd/}e##Fetch libs|{62xd/}d|e^\
        GET#/libs/{64xd/}e##TooLong^\
        GET#/libs/{63xd/}e/##Fetch libs|{62xd/}d|e^\
        PUT#/libs/{64xd/}##Folder libs|{62xd/}d|d^\
        PUT#/libs/{65xd/}##TooLong^\
        GET#/libs/{64xd/}e:##BadName^\
        GET#/api/storage/libs/{63xd/}e##Info libs|{62xd/}d|e^\
        GET#/api/storage/libs/{64xd/}e##TooLong^\
        POST#/api/copy/libs/a?to=/l/{63xd/}e##Copy libs|.|a l|{62xd/}d|e no^\
        POST#/api/copy/libs/a?to=/l/{63xd/}##Copy libs|.|a l|{62xd/}d|a no^\
        POST#/api/copy/libs/a?to=/l/{64xd/}##TooLong^\
        GET#/api/build/{255xa}/1##GetBuild [{255xa}] [1]^\
        GET#/api/build/{256xa}/1##TooLong^\
        GET#/api/build/a/{255xb}##GetBuild [a] [{255xb}]^\
        GET#/api/build/a/{256xb}##TooLong^\
        GET#/api/build/{256xa}/%00##TooLong^\
        GET#/api/build/{256xa}%00/1##BadName^\
        POST#/api/build/promote/{256xa}/##TooLong^\
        GET#/api/storage/./a##BadName^\
        GET#/../a##BadName^\
        GET#/libs/..##BadName^\
        GET#/libs/.##BadName^\
        GET#/libs/./a##BadName^\
        GET#/libs/a/../b##BadName^\
        GET#/libs/...##Fetch libs|.|...^\
        GET#/libs/%2e%2e##BadName^\
        GET#/libs/.a##Fetch libs|.|.a^\
        GET#/./a##BadName^\
        GET#/l%20s/a##BadName^\
        GET#/l~s/a##BadName^\
        GET#/A-z_0.9/a##Fetch A-z_0.9|.|a^\
        GET#/api/storage/api/a##BadName^\
        GET#/api/storage/artifactory/a##BadName^\
        GET#/libs/a\\b##BadName^\
        GET#/libs/a:b##BadName^\
        GET#/libs/a|b##BadName^\
        GET#/libs/a*b##BadName^\
        GET#/libs/a%22b##BadName^\
        GET#/libs/a<b##BadName^\
        GET#/libs/a>b##BadName^\
        GET#/libs/a=b##Fetch libs|.|a=b^\
        GET#/libs/a,b@c&d##Fetch libs|.|a,b@c&d^\
        GET#/l:/{256xa}##BadName^\
        GET#/libs/api##Fetch libs|.|api^\
        GET#/libs/a/##Fetch libs|.|a"
}

// Users, and the digests of deploys.
fn fields() -> &'static str {
    "GET#/libs/a#X-Arti-User:me#Fetch by me libs|.|a^\
        GET#/libs/a#x-arti-USER:me#Fetch by me libs|.|a^\
        GET#/libs/a#X-Arti-User:#BadUser^\
        GET#/libs/a#X-Arti-User:a b#BadUser^\
        GET#/libs/a#X-Arti-User:!~#Fetch by !~ libs|.|a^\
        GET#/libs/a#X-Arti-User:ä#BadUser^\
        GET#/libs/a#X-Arti-User:{64xu}#Fetch by {64xu} libs|.|a^\
        GET#/libs/a#X-Arti-User:{65xu}#BadUser^\
        GET#/libs/a#X-Arti-User:me\nX-Arti-User:#Fetch by me libs|.|a^\
        GET#/libs/a#X-Arti-User:\nX-Arti-User:me#BadUser^\
        GET#/libs/a#X-Arti-Users:#Fetch libs|.|a^\
        GET#/api/system/ping#X-Arti-User:#BadUser^\
        GET#/api/nothing#X-Arti-User:#NoRoute^\
        POST#/libs/a#X-Arti-User:#NoMethod^\
        GET#libs#X-Arti-User:#BadTarget^\
        GET#/libs/a:#X-Arti-User:#BadUser^\
        PUT#/libs/a#X-Arti-User:\nX-Checksum-Md5:0#BadUser^\
        PUT#/api/storage/libs/a#X-Arti-User:#BadUser^\
        PUT#/libs/a#X-Checksum-Md5:900150983cd24fb0d6963f7d28e17f72#Deploy libs|.|a [] md5 no^\
        PUT#/libs/a#x-checksum-sha1:A9993E364706816ABA3E25717850C26C9CD0D89D#Deploy libs|.|a [] sha1 no^\
        PUT#/libs/a;k=v#X-Checksum-Md5:900150983cd24fb0d6963f7d28e17f72\nX-Checksum-Sha1:a9993e364706816aba3e25717850c26c9cd0d89d\nX-Checksum-Sha256:{64xa}#Deploy libs|.|a [k=v] md5 sha1 sha256 no^\
        PUT#/libs/a#X-Checksum-Md5:0#BadHeader: X-Checksum-Md5^\
        PUT#/libs/a#X-Checksum-Sha1:0\nX-Checksum-Md5:0#BadHeader: X-Checksum-Md5^\
        PUT#/libs/a#x-checksum-SHA256:\nX-Checksum-Sha1:#BadHeader: X-Checksum-Sha1^\
        PUT#/libs/a#X-Checksum-Sha256:{63xa}#BadHeader: X-Checksum-Sha256^\
        PUT#/libs/a:#X-Checksum-Md5:0#BadHeader: X-Checksum-Md5^\
        PUT#/libs/a/#X-Checksum-Md5:0#Folder libs|.|a^\
        GET#/libs/a#X-Checksum-Md5:0#Fetch libs|.|a^\
        PUT#/api/build#X-Checksum-Md5:0#PutBuild^\
        PUT#/libs/a#X-Checksum-Deploy:true#ChecksumMissing^\
        PUT#/libs/a#X-Checksum-Deploy:true\nX-Checksum-Md5:900150983cd24fb0d6963f7d28e17f72#ChecksumMissing^\
        PUT#/libs/a#X-Checksum-Deploy:true\nX-Checksum-Sha1:a9993e364706816aba3e25717850c26c9cd0d89d#Deploy libs|.|a [] sha1 yes^\
        PUT#/libs/a#X-Checksum-Deploy:true\nX-Checksum-Sha256:{64x0}#Deploy libs|.|a [] sha256 yes^\
        PUT#/libs/a#X-Checksum-Deploy:True#Deploy libs|.|a [] no^\
        PUT#/libs/a#X-Checksum-Deploy:false\nX-Checksum-Deploy:true#Deploy libs|.|a [] no^\
        PUT#/libs/a:#X-Checksum-Deploy:true#ChecksumMissing^\
        PUT#/libs/a#X-Checksum-Deploy:true\nX-Checksum-Sha1:0#BadHeader: X-Checksum-Sha1^\
        PUT#/libs/a/#X-Checksum-Deploy:true#Folder libs|.|a^\
        PUT#/libs/a#X-Checksum-Sha1:a9993e364706816aba3e25717850c26c9cd0d89d\nX-Checksum-Sha1:0#Deploy libs|.|a [] sha1 no^\
        PUT#/libs/a#X-Checksum-Sha1:0\nX-Checksum-Sha1:a9993e364706816aba3e25717850c26c9cd0d89d#BadHeader: X-Checksum-Sha1"
}

// So many times this text, as `3xa` says.
fn add_run(text: &mut String, run: &str) -> Result<(), Fail> {
    let Some((times, unit)) = run.split_once('x') else {
        return Ok(());
    };
    for _ in 0..times.parse::<u32>()? {
        text.push_str(unit)?;
    }
    Ok(())
}

// The text with its runs written out.
fn written_out(alloc: Global, text: &str) -> Result<String, Fail> {
    let mut whole = String::new(alloc);
    for part in text.split('{') {
        match part.split_once('}') {
            Some((run, behind)) => {
                add_run(&mut whole, run)?;
                whole.push_str(behind)?;
            }
            None => whole.push_str(part)?,
        }
    }
    Ok(whole)
}

fn add_key(text: &mut String, key: &ItemKey) -> Result<(), AllocError> {
    text.push_str(" ")?;
    text.push_str(key.repo.as_str())?;
    text.push_str("|")?;
    text.push_str(key.path.as_str())?;
    text.push_str("|")?;
    text.push_str(key.name.as_str())
}

fn add_text(text: &mut String, part: &Text) -> Result<(), AllocError> {
    text.push_str(" [")?;
    text.push_str(part.as_str())?;
    text.push_str("]")
}

fn add_flag(text: &mut String, flag: bool) -> Result<(), AllocError> {
    text.push_str(if flag { " yes" } else { " no" })
}

fn add_word(text: &mut String, word: &str, there: bool) -> Result<(), AllocError> {
    if there { text.push_str(word) } else { Ok(()) }
}

// Which digests are wanted.
fn add_digests(text: &mut String, digests: &SomeDigests) -> Result<(), AllocError> {
    add_word(text, " md5", digests.md5.is_some())?;
    add_word(text, " sha1", digests.sha1.is_some())?;
    add_word(text, " sha256", digests.sha256.is_some())
}

fn add_deploy(
    text: &mut String,
    key: &ItemKey,
    props: &Text,
    digests: &SomeDigests,
) -> Result<(), AllocError> {
    add_key(text, key)?;
    add_text(text, props)?;
    add_digests(text, digests)
}

fn add_list(text: &mut String, key: &ItemKey, keys: &Option<Text>) -> Result<(), AllocError> {
    add_key(text, key)?;
    match keys {
        Some(keys) => add_text(text, keys),
        None => text.push_str(" all"),
    }
}

fn add_change(
    text: &mut String,
    key: &ItemKey,
    props: &Text,
    deep: bool,
) -> Result<(), AllocError> {
    add_key(text, key)?;
    add_text(text, props)?;
    add_flag(text, deep)
}

fn add_keys(text: &mut String, from: &ItemKey, to: &ItemKey, dry: bool) -> Result<(), AllocError> {
    add_key(text, from)?;
    add_key(text, to)?;
    add_flag(text, dry)
}

fn add_build(text: &mut String, name: &Text, number: &Text) -> Result<(), AllocError> {
    add_text(text, name)?;
    add_text(text, number)
}

fn add_builds(text: &mut String, name: &Text, numbers: &Seq<Text>) -> Result<(), AllocError> {
    add_text(text, name)?;
    for number in numbers.as_slice() {
        add_text(text, number)?;
    }
    Ok(())
}

fn row_name(row: &AskRow) -> &'static str {
    match row {
        AskRow::Deploy { .. } => "Deploy",
        AskRow::Folder { .. } => "Folder",
        AskRow::Fetch { .. } => "Fetch",
        AskRow::Head { .. } => "Head",
        AskRow::Delete { .. } => "Delete",
        AskRow::Info { .. } => "Info",
        AskRow::GetProps { .. } => "GetProps",
        AskRow::SetProps { .. } => "SetProps",
        AskRow::DropProps { .. } => "DropProps",
        AskRow::Copy { .. } => "Copy",
        AskRow::Move { .. } => "Move",
        AskRow::Define { update, .. } => { if *update { "Redefine" } else { "Define" } }
        AskRow::GetRepo { .. } => "GetRepo",
        AskRow::ListRepos => "ListRepos",
        AskRow::Ping => "Ping",
        AskRow::PutBuild => "PutBuild",
        AskRow::GetBuild { .. } => "GetBuild",
        AskRow::DropBuilds { .. } => "DropBuilds",
        AskRow::Promote { .. } => "Promote",
        AskRow::Aql => "Aql",
        AskRow::Spec => "Spec",
    }
}

// What stands behind a row's name and user.
fn add_row(text: &mut String, row: &AskRow) -> Result<(), AllocError> {
    match row {
        AskRow::Deploy {
            key,
            props,
            digests,
            checksum,
        } => {
            add_deploy(text, key, props, digests)?;
            add_flag(text, *checksum)
        }
        AskRow::Folder { key }
        | AskRow::Fetch { key }
        | AskRow::Head { key }
        | AskRow::Delete { key }
        | AskRow::Info { key } => add_key(text, key),
        AskRow::GetProps { key, keys } => add_list(text, key, keys),
        AskRow::SetProps { key, props, deep } => add_change(text, key, props, *deep),
        AskRow::DropProps { key, keys, deep } => add_change(text, key, keys, *deep),
        AskRow::Copy { from, to, dry } | AskRow::Move { from, to, dry } => {
            add_keys(text, from, to, *dry)
        }
        AskRow::Define { repo, .. } | AskRow::GetRepo { repo } => add_text(text, repo),
        AskRow::GetBuild { name, number } | AskRow::Promote { name, number } => {
            add_build(text, name, number)
        }
        AskRow::DropBuilds {
            name,
            numbers,
            artifacts,
            all,
        } => {
            add_builds(text, name, numbers)?;
            add_flag(text, *artifacts)?;
            add_flag(text, *all)
        }
        _ => Ok(()),
    }
}

fn add_ask(text: &mut String, ask: &Ask) -> Result<(), AllocError> {
    text.push_str(row_name(&ask.row))?;
    if ask.user.as_str() != "anonymous" {
        text.push_str(" by ")?;
        text.push_str(ask.user.as_str())?;
    }
    add_row(text, &ask.row)
}

fn add_named(text: &mut String, word: &str, name: &Text) -> Result<(), AllocError> {
    text.push_str(word)?;
    text.push_str(name.as_str())
}

fn add_refusal(text: &mut String, refusal: &Refusal) -> Result<(), AllocError> {
    match refusal {
        Refusal::BadTarget => text.push_str("BadTarget"),
        Refusal::NoRoute => text.push_str("NoRoute"),
        Refusal::NoMethod => text.push_str("NoMethod"),
        Refusal::BadUser => text.push_str("BadUser"),
        Refusal::ChecksumMissing => text.push_str("ChecksumMissing"),
        Refusal::BadName => text.push_str("BadName"),
        Refusal::TooLong(None) => text.push_str("TooLong"),
        Refusal::BadHeader(name) => add_named(text, "BadHeader: ", name),
        Refusal::Missing(name) => add_named(text, "Missing: ", name),
        Refusal::BadQuery(name) => add_named(text, "BadQuery: ", name),
        _ => text.push_str("another"),
    }
}

// What a request of a table asks.
fn told(alloc: Global, method: &str, target: &str, fields: &str) -> Result<String, Fail> {
    let request = Request {
        method: Text::from_str(alloc, method)?,
        target: Text::from_str(alloc, written_out(alloc, target)?.as_str())?,
        fields: fields_of(alloc, written_out(alloc, fields)?.as_bytes())?,
        last: false,
    };
    let mut text = String::new(alloc);
    match &ask_of(alloc, &request)? {
        Ok(ask) => add_ask(&mut text, ask)?,
        Err(refusal) => add_refusal(&mut text, refusal)?,
    }
    Ok(text)
}

// The requests of a table that ask something else, one a line.
fn wrong(alloc: Global, table: &str) -> Result<String, Fail> {
    let mut wrong = String::new(alloc);
    for case in table.split('^') {
        let mut parts = case.split('#');
        let method = parts.next().unwrap_or("");
        let target = parts.next().unwrap_or("");
        let fields = parts.next().unwrap_or("");
        let text = told(alloc, method, target, fields)?;
        let wanted = written_out(alloc, parts.next().unwrap_or(""))?;
        if text.as_str() != wanted.as_str() {
            wrong.push_str(case)?;
            wrong.push_str(" -> ")?;
            wrong.push_str(text.as_str())?;
            wrong.push_str("\n")?;
        }
    }
    Ok(wrong)
}

#[test]
fn requests_ask_what_is_listed(rt: HostRuntime) -> Result<(), Fail> {
    let alloc = rt.alloc();
    for table in [targets(), routes(), parameters(), names(), fields()] {
        assert_eq!(rt; wrong(alloc, table)?.as_str(), "");
    }
    Ok(())
}
