//! Which texts are scripts, as definitions.
//!
//! It stands on the types of script_terms. `Script` says what a text is from its bytes alone: the script
//! of its lines, or the first line with a fault and its cause. `Steps` has the eight steps of a line,
//! weighed against the list of the lines before it; `Forms` has the table of the forms of each verb, `Asks`
//! what each event asks of those lines, `Update` the grammar of an update, `Words` the classes of words,
//! `Known` and `Load` what earlier lines declared and sent. The functions below have no code: their contracts are worked texts, computed by
//! the definitions. The crates above read exactly this.
#![tactic(auto)]

ghost use Rattle.std.specs.Prelude.{[], ◌∷◌, codes, None};
ghost use Rattle.guarded_update.specs.declared.setup.Place.TheVariants as places;
ghost use Rattle.guarded_update.specs.declared.update.Action.TheVariants.{Append, Replace, Truncate, Splice};
ghost use Rattle.script_terms.specs.declared.cause.Cause.TheVariants as causes;
ghost use Rattle.pond_base.specs.declared.numbers.Party.TheVariants.{Member, Client};
ghost use Rattle.script_terms.specs.declared.line.Line.TheVariants.{Submit, Resubmit, Deliver, Lose, Settle, Mute, Unmute, ForgeOrder, ForgePrepare, ForgeCommit, ForgeHeart, ForgeRaw, Cut, Mend, Read, ShowMember, ShowClient, ShowVersion, ShowRecent};
ghost use Rattle.script_terms.specs.declared.line.LineGuard.TheVariants.{VersionIs, SizeIs, BlockIs};
ghost use Rattle.script_terms.specs.declared.line.Spot.TheVariants as spots;
ghost use Rattle.script_grammar.specs.Worked.{IsRefused, IsScript};

/// Each step has its cause, and a line that fails at two steps has the cause of the first of them.
pub fn first_step_that_fails()
    ensures byte { IsRefused 3 causes.Byte (codes "pond 1" ∷ codes "ring 0" ∷ (9 ∷ codes "frog") ∷ []) }
    ensures skipped { IsRefused 2 causes.Byte (codes "pond 1" ∷ (35 ∷ 127 ∷ []) ∷ []) }
    ensures verb { IsRefused 2 causes.Verb (codes "pond 1" ∷ codes "readat 0 a 0 4" ∷ []) }
    ensures order { IsRefused 2 causes.Order (codes "pond 1" ∷ codes "settle now" ∷ []) }
    ensures words { IsRefused 4 causes.Words (codes "pond 1" ∷ codes "ring 0" ∷ codes "# a comment" ∷ codes "read A" ∷ []) }
    ensures fixed { IsRefused 3 causes.Words (codes "pond 1" ∷ codes "ring 0" ∷ codes "show clients A" ∷ []) }
    ensures word { IsRefused 3 causes.Word (codes "pond 1" ∷ codes "ring 0" ∷ codes "read 9 A" ∷ []) }
    ensures range { IsRefused 3 causes.Range (codes "pond 1" ∷ codes "ring 0" ∷ codes "read 1 a" ∷ []) }
    ensures end { IsRefused 2 causes.Order (codes "pond 1" ∷ []) }
    ensures nothing { IsRefused 1 causes.Order [] }
{}

/// An update is weighed group by group: a keyword takes its words whatever they are.
pub fn updates_in_groups()
    ensures taken { IsRefused 3 causes.Word (codes "pond 1" ∷ codes "ring 0" ∷ codes "submit 0 a append or" ∷ []) }
    ensures missing { IsRefused 3 causes.Words (codes "pond 1" ∷ codes "ring 0" ∷ codes "submit 0 a append 61 or" ∷ []) }
    ensures nothing { IsRefused 3 causes.Words (codes "pond 1" ∷ codes "ring 0" ∷ codes "submit 0 a" ∷ []) }
    ensures guard { IsRefused 3 causes.Words (codes "pond 1" ∷ codes "ring 0" ∷ codes "submit 0 a if version 0 append 61" ∷ []) }
    ensures delete { IsRefused 3 causes.Range (codes "pond 1" ∷ codes "ring 0" ∷ codes "submit 0 a delete 0 0" ∷ []) }
{}

/// A ring of up to ten members, those of them that are faulty, and where clients read.
pub fn faulty_members_and_homes()
    ensures ring { IsRefused 2 causes.Range (codes "pond 1" ∷ codes "ring 4" ∷ []) }
    ensures full { IsRefused 4 causes.Full (codes "pond 1" ∷ codes "ring 1" ∷ codes "faulty 0" ∷ codes "faulty 1" ∷ []) }
    ensures none { IsRefused 3 causes.Full (codes "pond 1" ∷ codes "ring 0" ∷ codes "faulty 0" ∷ []) }
    ensures member { IsRefused 3 causes.Range (codes "pond 1" ∷ codes "ring 1" ∷ codes "faulty 4" ∷ []) }
    ensures twice { IsRefused 4 causes.Range (codes "pond 1" ∷ codes "ring 1" ∷ codes "faulty 0" ∷ codes "faulty 0" ∷ []) }
    ensures late { IsRefused 4 causes.Order (codes "pond 1" ∷ codes "ring 1" ∷ codes "block 64" ∷ codes "faulty 0" ∷ []) }
    ensures client { IsRefused 3 causes.Range (codes "pond 1" ∷ codes "ring 1" ∷ codes "home 1 member 0" ∷ []) }
    ensures home { IsRefused 3 causes.Range (codes "pond 1" ∷ codes "ring 1" ∷ codes "home 0 member 4" ∷ []) }
    ensures again { IsRefused 4 causes.Range (codes "pond 1" ∷ codes "ring 1" ∷ codes "home 0 member 1" ∷ codes "home 0 member 2" ∷ []) }
    ensures replica { IsRefused 3 causes.Words (codes "pond 1" ∷ codes "ring 1" ∷ codes "home 0 replica 0" ∷ []) }
    ensures before { IsRefused 4 causes.Order (codes "pond 1" ∷ codes "ring 1" ∷ codes "home 0 member 1" ∷ codes "clients 2" ∷ []) }
{}

/// A message is one of a place from 1 on, between parties that are declared.
pub fn messages_and_their_parties()
    ensures sender { IsRefused 3 causes.Range (codes "pond 1" ∷ codes "ring 1" ∷ codes "deliver m4 m0 1" ∷ []) }
    ensures to { IsRefused 3 causes.Range (codes "pond 1" ∷ codes "ring 1" ∷ codes "deliver m0 c1 1" ∷ []) }
    ensures place { IsRefused 3 causes.Range (codes "pond 1" ∷ codes "ring 1" ∷ codes "deliver m0 m1 0" ∷ []) }
    ensures lost { IsRefused 3 causes.Range (codes "pond 1" ∷ codes "ring 1" ∷ codes "lose m0 m1 0" ∷ []) }
    ensures lost_from { IsRefused 3 causes.Range (codes "pond 1" ∷ codes "ring 1" ∷ codes "lose c1 m1 1" ∷ []) }
    ensures mute { IsRefused 3 causes.Range (codes "pond 1" ∷ codes "ring 1" ∷ codes "mute m4" ∷ []) }
    ensures unmute { IsRefused 3 causes.Range (codes "pond 1" ∷ codes "ring 1" ∷ codes "unmute c1" ∷ []) }
    ensures kind { IsRefused 3 causes.Word (codes "pond 1" ∷ codes "ring 1" ∷ codes "mute r0" ∷ []) }
    ensures number { IsRefused 3 causes.Word (codes "pond 1" ∷ codes "ring 1" ∷ codes "mute m00" ∷ []) }
    ensures alone { IsRefused 3 causes.Word (codes "pond 1" ∷ codes "ring 1" ∷ codes "mute m" ∷ []) }
    ensures words { IsRefused 3 causes.Words (codes "pond 1" ∷ codes "ring 1" ∷ codes "deliver m0 m1" ∷ []) }
{}

/// A client sends again what it submitted on an earlier line.
pub fn requests_sent_again()
    ensures nothing { IsRefused 3 causes.Range (codes "pond 1" ∷ codes "ring 0" ∷ codes "resubmit 0 1" ∷ []) }
    ensures later { IsRefused 4 causes.Range (codes "pond 1" ∷ codes "ring 0" ∷ codes "submit 0 a append 61" ∷ codes "resubmit 0 2" ∷ []) }
    ensures zero { IsRefused 4 causes.Range (codes "pond 1" ∷ codes "ring 0" ∷ codes "submit 0 a append 61" ∷ codes "resubmit 0 0" ∷ []) }
    ensures another { IsRefused 5 causes.Range (codes "pond 1" ∷ codes "ring 0" ∷ codes "clients 2" ∷ codes "submit 0 a append 61" ∷ codes "resubmit 1 1" ∷ []) }
    ensures not_counted { IsRefused 5 causes.Range (codes "pond 1" ∷ codes "ring 0" ∷ codes "submit 0 a append 61" ∷ codes "resubmit 0 1" ∷ codes "resubmit 0 2" ∷ []) }
    ensures client { IsRefused 4 causes.Range (codes "pond 1" ∷ codes "ring 0" ∷ codes "submit 0 a append 61" ∷ codes "resubmit 1 1" ∷ []) }
{}

/// A member that is declared faulty sends what no correct member would, for slots from 1 to 65,536 and requests that were submitted.
pub fn forgeries_of_faulty_members()
    ensures correct { IsRefused 5 causes.Range (codes "pond 1" ∷ codes "ring 1" ∷ codes "faulty 1" ∷ codes "submit 0 a append 61" ∷ codes "forge 0 m0 order 1 0 1" ∷ []) }
    ensures correct_raw { IsRefused 5 causes.Range (codes "pond 1" ∷ codes "ring 1" ∷ codes "faulty 1" ∷ codes "submit 0 a append 61" ∷ codes "forge 0 m0 raw 00" ∷ []) }
    ensures party { IsRefused 5 causes.Range (codes "pond 1" ∷ codes "ring 1" ∷ codes "faulty 1" ∷ codes "submit 0 a append 61" ∷ codes "forge 1 m4 prepare 1 0 1" ∷ []) }
    ensures raw_party { IsRefused 5 causes.Range (codes "pond 1" ∷ codes "ring 1" ∷ codes "faulty 1" ∷ codes "submit 0 a append 61" ∷ codes "forge 1 c1 raw 00" ∷ []) }
    ensures slot { IsRefused 5 causes.Range (codes "pond 1" ∷ codes "ring 1" ∷ codes "faulty 1" ∷ codes "submit 0 a append 61" ∷ codes "forge 1 m0 commit 0 0 1" ∷ []) }
    ensures last_slot { IsRefused 5 causes.Range (codes "pond 1" ∷ codes "ring 1" ∷ codes "faulty 1" ∷ codes "submit 0 a append 61" ∷ codes "forge 1 m0 order 65537 0 1" ∷ []) }
    ensures client { IsRefused 5 causes.Range (codes "pond 1" ∷ codes "ring 1" ∷ codes "faulty 1" ∷ codes "submit 0 a append 61" ∷ codes "forge 1 m0 prepare 1 1 1" ∷ []) }
    ensures request { IsRefused 5 causes.Range (codes "pond 1" ∷ codes "ring 1" ∷ codes "faulty 1" ∷ codes "submit 0 a append 61" ∷ codes "forge 1 m0 commit 1 0 2" ∷ []) }
    ensures content { IsRefused 5 causes.Word (codes "pond 1" ∷ codes "ring 1" ∷ codes "faulty 1" ∷ codes "submit 0 a append 61" ∷ codes "forge 1 m0 raw 0" ∷ []) }
    ensures kind { IsRefused 5 causes.Words (codes "pond 1" ∷ codes "ring 1" ∷ codes "faulty 1" ∷ codes "submit 0 a append 61" ∷ codes "forge 1 m0 request 1 0 1" ∷ []) }
    ensures count { IsRefused 5 causes.Words (codes "pond 1" ∷ codes "ring 1" ∷ codes "faulty 1" ∷ codes "submit 0 a append 61" ∷ codes "forge 1 m0 order 00" ∷ []) }
{}

/// A faulty member sends a heart of a version from 1 on, with a name of 40 hexadecimal digits.
pub fn forged_hearts()
    ensures correct { IsRefused 4 causes.Range (codes "pond 1" ∷ codes "ring 1" ∷ codes "faulty 1" ∷ codes "forge 0 c0 heart a 1 da39a3ee5e6b4b0d3255bfef95601890afd80709" ∷ []) }
    ensures party { IsRefused 4 causes.Range (codes "pond 1" ∷ codes "ring 1" ∷ codes "faulty 1" ∷ codes "forge 1 c1 heart a 1 da39a3ee5e6b4b0d3255bfef95601890afd80709" ∷ []) }
    ensures version { IsRefused 4 causes.Range (codes "pond 1" ∷ codes "ring 1" ∷ codes "faulty 1" ∷ codes "forge 1 c0 heart a 0 da39a3ee5e6b4b0d3255bfef95601890afd80709" ∷ []) }
    ensures label { IsRefused 4 causes.Word (codes "pond 1" ∷ codes "ring 1" ∷ codes "faulty 1" ∷ codes "forge 1 c0 heart A 1 da39a3ee5e6b4b0d3255bfef95601890afd80709" ∷ []) }
    ensures name { IsRefused 4 causes.Word (codes "pond 1" ∷ codes "ring 1" ∷ codes "faulty 1" ∷ codes "forge 1 c0 heart a 1 da39a3ee5e6b4b0d3255bfef95601890afd8070" ∷ []) }
    ensures digits { IsRefused 4 causes.Word (codes "pond 1" ∷ codes "ring 1" ∷ codes "faulty 1" ∷ codes "forge 1 c0 heart a 1 da39a3ee5e6b4b0d3255bfef95601890afd8070g" ∷ []) }
    ensures long { IsRefused 4 causes.Word (codes "pond 1" ∷ codes "ring 1" ∷ codes "faulty 1" ∷ codes "forge 1 c0 heart a 1 da39a3ee5e6b4b0d3255bfef95601890afd8070900" ∷ []) }
    ensures first { IsRefused 4 causes.Word (codes "pond 1" ∷ codes "ring 1" ∷ codes "faulty 1" ∷ codes "forge 0 c1 heart a 0 da39a3ee5e6b4b0d3255bfef95601890afd8070" ∷ []) }
    ensures count { IsRefused 4 causes.Words (codes "pond 1" ∷ codes "ring 1" ∷ codes "faulty 1" ∷ codes "forge 1 c0 heart a 1" ∷ []) }
{}

/// What a client believes is shown of a client that is declared.
pub fn clients_are_shown()
    ensures range { IsRefused 3 causes.Range (codes "pond 1" ∷ codes "ring 0" ∷ codes "show client 1" ∷ []) }
    ensures word { IsRefused 3 causes.Word (codes "pond 1" ∷ codes "ring 0" ∷ codes "show client c0" ∷ []) }
    ensures words { IsRefused 3 causes.Words (codes "pond 1" ∷ codes "ring 0" ∷ codes "show client" ∷ []) }
{}

/// A member is cut off, and reached again, by its number.
pub fn members_are_cut()
    ensures range { IsRefused 3 causes.Range (codes "pond 1" ∷ codes "ring 1" ∷ codes "cut member 4" ∷ []) }
    ensures mended { IsRefused 3 causes.Range (codes "pond 1" ∷ codes "ring 1" ∷ codes "mend member 4" ∷ []) }
    ensures word { IsRefused 3 causes.Word (codes "pond 1" ∷ codes "ring 1" ∷ codes "cut member m0" ∷ []) }
    ensures words { IsRefused 3 causes.Words (codes "pond 1" ∷ codes "ring 1" ∷ codes "cut member" ∷ []) }
    ensures place { IsRefused 3 causes.Words (codes "pond 1" ∷ codes "ring 1" ∷ codes "cut client 0" ∷ []) }
    ensures late { IsRefused 4 causes.Order (codes "pond 1" ∷ codes "ring 1" ∷ codes "cut member 0" ∷ codes "clients 2" ∷ []) }
{}

/// A script of the forms of one member.
pub fn built_forms()
    ensures { IsScript
        (record {
          setup = record { f = 0; faulty = []; clients = 2; block = 64; m = 16; n = 32; newer = None };
          replicas = [];
          homes = places.Member (record { 0 = 0 }) ∷ places.Member (record { 0 = 0 }) ∷ [];
          lines = (
            5,
            Submit (record { 0 = 0 }) (codes "a") (
                record { guards = VersionIs (record { 0 = 3 }) ∷ SizeIs 4 ∷ []; actions = Append (60 ∷ 71 ∷ 209 ∷ 170 ∷ []) ∷ Replace 1 (255 ∷ []) ∷ [] }
                ∷ record { guards = BlockIs 0 (104 ∷ 105 ∷ []) ∷ []; actions = Splice 1 2 (97 ∷ []) ∷ [] }
                ∷ record { guards = []; actions = Truncate 0 ∷ Splice 3 1 [] ∷ [] }
                ∷ []),
          )
              ∷ (7, Settle)
              ∷ (8, Read (record { 0 = 1 }) (codes "a_1"))
              ∷ (9, ShowMember (record { 0 = 0 }))
              ∷ (10, ShowVersion (record { 0 = 0 }) (codes "a") (record { 0 = 1 }))
              ∷ [];
        })
        (codes "  pond   1 " ∷ codes "ring 0" ∷ codes "block 64" ∷ codes "clients 2"
        ∷ codes "submit 0 a if version 3 and size 4 then append gen:0:4 + replace 1 Ff or if block 0 6869 then splice 1 2 61 or truncate 0 + delete 3 1"
        ∷ [] ∷ codes "settle" ∷ codes "read 1 a_1" ∷ codes "show member 0" ∷ codes "show version 0 a 1" ∷ []) }
{}

/// A script of each form of a ring of members.
pub fn forms_of_rings()
    ensures { IsScript
        (record {
          setup = record { f = 1; faulty = record { 0 = 3 } ∷ []; clients = 2; block = 8192; m = 16; n = 32; newer = None };
          replicas = [];
          homes = places.Member (record { 0 = 0 }) ∷ places.Member (record { 0 = 3 }) ∷ [];
          lines = (6, Submit (record { 0 = 1 }) (codes "a") (record { guards = []; actions = Append (97 ∷ []) ∷ [] } ∷ []))
              ∷ (7, Resubmit (record { 0 = 1 }) 1)
              ∷ (8, Deliver (Client (record { 0 = 1 })) (Member (record { 0 = 0 })) 1)
              ∷ (9, Lose (Member (record { 0 = 0 })) (Member (record { 0 = 3 })) 4294967295)
              ∷ (10, Mute (Member (record { 0 = 3 })))
              ∷ (11, Unmute (Client (record { 0 = 0 })))
              ∷ (12, ForgeOrder (record { 0 = 3 }) (Member (record { 0 = 1 })) (record { 0 = 1 }) (record { 0 = 1 }) 1)
              ∷ (13, ForgePrepare (record { 0 = 3 }) (Member (record { 0 = 2 })) (record { 0 = 65536 }) (record { 0 = 1 }) 1)
              ∷ (14, ForgeCommit (record { 0 = 3 }) (Client (record { 0 = 0 })) (record { 0 = 2 }) (record { 0 = 1 }) 1)
              ∷ (15, ForgeHeart (record { 0 = 3 }) (Client (record { 0 = 1 })) (codes "a") (record { 0 = 1 }) (0 ∷ 17 ∷ 34 ∷ 51 ∷ 68 ∷ 85 ∷ 102 ∷ 119 ∷ 136 ∷ 153 ∷ 170 ∷ 187 ∷ 204 ∷ 221 ∷ 238 ∷ 255 ∷ 1 ∷ 35 ∷ 69 ∷ 103 ∷ []))
              ∷ (16, ForgeRaw (record { 0 = 3 }) (Client (record { 0 = 1 })) (0 ∷ 255 ∷ []))
              ∷ (17, Cut (spots.Member (record { 0 = 2 })))
              ∷ (18, Mend (spots.Member (record { 0 = 2 })))
              ∷ (19, ShowMember (record { 0 = 3 }))
              ∷ (20, ShowClient (record { 0 = 1 }))
              ∷ (21, ShowRecent)
              ∷ [];
        })
        (codes "pond 1" ∷ codes "ring 1" ∷ codes "faulty 3" ∷ codes "clients 2" ∷ codes "home 1 member 3" ∷ codes "submit 1 a append 61" ∷ codes "resubmit 1 1"
        ∷ codes "deliver c1 m0 1" ∷ codes "lose m0 m3 4294967295" ∷ codes "mute m3" ∷ codes "unmute c0" ∷ codes "forge 3 m1 order 1 1 1" ∷ codes "forge 3 m2 prepare 65536 1 1"
        ∷ codes "forge 3 c0 commit 2 1 1" ∷ codes "forge 3 c1 heart a 1 00112233445566778899aAbBcCdDeEfF01234567" ∷ codes "forge 3 c1 raw 00fF"
        ∷ codes "cut member 2" ∷ codes "mend member 2" ∷ codes "show member 3" ∷ codes "show client 1" ∷ codes "show recent" ∷ []) }
{}
